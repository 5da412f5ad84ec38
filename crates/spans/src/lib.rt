// A range of words of a device in any state, told by where it lies: nothing is copied and nothing changes, and C reads it there.
// Its answer is C's number: a refusal, an array and an address in one, where a Result of the two would be packed at once.
#![tactic(auto)]

ghost use Rattle.std.specs.Prelude.{◌≡◌};
ghost use Rattle.face.specs.Range.{face_range};

use plain::{Array, Refusal};

pub fn range(
    part: u64,
    words: &[u64],
    cells: &[u16],
    otp: &[u16],
    first: usize,
    count: usize,
) -> u64
    ensures { result ≡ face_range part words.now cells.now otp.now first count }
{
    let Some(record) = calls::record(part, words) else {
        return calls::packed_range(Refusal::State, Array::Main, 0);
    };
    let device = image::device_of(record);
    let refusal = ranging::refusal(calls::part_named(part), device, cells, otp, first, count);
    let operation = device.operation;
    calls::packed_range(refusal, ranging::array(operation, first), first)
}
