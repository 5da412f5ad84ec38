// A range of words, handed back as a part of the one-time words or of the main array (document 02, request 4). A refused range is
// handed back empty, and the refusal is told beside it.
#![tactic(auto)]

ghost use Rattle.std.specs.Prelude.{◌≡◌};
ghost use Rattle.plain.specs.Lent.{lent, array_of, words_of};
ghost use Rattle.plain.specs.Machine.{range_array, hands_back, range_event, range_words};
ghost use Rattle.ranging.specs.Ranged.{ranged};

use geometry::Part;
use plain::{Array, Device, Operation, Refusal, figures};

// STATE and CELLS as of every event, then ADDRESS and BUSY; else DONE: audit/specs (`Asks`, `Ranges`) speaks of this answer.
pub fn refusal(
    part: Part,
    device: Device,
    cells: &[u16],
    otp: &[u16],
    first: usize,
    count: usize,
) -> Refusal
    ensures { result ≡ (range_event part device (lent cells.now otp.now) first count).answer.refusal }
{
    match judged::entry(part, soundness::is_sound(part, device), cells, otp) {
        Err(refusal) => refusal,
        Ok(()) => within(part, device.operation, first, count),
    }
}

// Once the record is sound and what is lent is whole. A difference is asked, as a sum might wrap.
fn within(part: Part, operation: Operation, first: usize, count: usize) -> Refusal
    ensures { result ≡ ranged part operation first count }
{
    if part.words() <= first {
        return Refusal::Address;
    }
    let size = size_of(part, array(operation, first));
    if size - first < count {
        return Refusal::Address;
    }
    if hands_back(operation) {
        return Refusal::Done;
    }
    Refusal::Busy
}

// "the one-time words or .. the main array, whichever its first address selects"
pub fn array(operation: Operation, first: usize) -> Array
    ensures { result ≡ range_array operation first }
{
    operations::selected(operations::suspension_of(operation), first)
}

fn size_of(part: Part, array: Array) -> usize
    ensures { result ≡ words_of part array }
{
    match array {
        Array::Main => part.words(),
        Array::OneTime => figures::OTP_WORDS,
    }
}

// "While it is entered and nothing runs"
fn hands_back(operation: Operation) -> bool
    ensures { result ≡ hands_back operation }
{
    operations::is_entered(operations::suspension_of(operation)) && operations::is_still(operation)
}

// The words in place, of the array that mode and first address select.
pub fn range<'a>(
    part: Part,
    device: Device,
    cells: &'a [u16],
    otp: &'a [u16],
    first: usize,
    count: usize,
) -> &'a [u16]
    ensures { result.now ≡ range_words part device (lent cells.now otp.now) first count }
{
    let answer = refusal(part, device, cells, otp, first, count);
    let words = array(device.operation, first).among(cells, otp);
    if answer != Refusal::Done {
        return &words[..0];
    }
    &words[first..first + count]
}
