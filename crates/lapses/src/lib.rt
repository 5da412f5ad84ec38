// A lapse of time, and one of power, of a device in any state: the record is taken out of its words, the lapse tells what it
// does, and what changes is stored. `stands` is asked and then the array is made, as in `bus`.
#![tactic(auto)]

ghost use Rattle.std.specs.Prelude.{◌≡◌};
ghost use Rattle.plain.specs.Refusals.{number};
ghost use Rattle.face.specs.Face.{refusal_of, face_wait, face_cut};

use plain::Refusal;

pub fn wait(
    part: u64,
    words: &mut [u64],
    cells: &mut [u16],
    otp: &mut [u16],
    microseconds: u64,
) -> Result<(), Refusal>
    ensures refusal { number (refusal_of result) ≡ (face_wait part words.old cells.old otp.old microseconds).refusal }
    ensures words_after { words.new ≡ (face_wait part words.old cells.old otp.old microseconds).image }
    ensures cells_after { cells.new ≡ (face_wait part words.old cells.old otp.old microseconds).cells }
    ensures otp_after { otp.new ≡ (face_wait part words.old cells.old otp.old microseconds).otp }
{
    if !calls::stands(part, words) {
        return Err(Refusal::State);
    }
    let record = words.as_mut_array().unwrap();
    let device = image::device_of(record);
    let moved = elapsed::wait(calls::part_named(part), device, cells, otp, microseconds)?;
    effects::put_moved(record, moved);
    Ok(())
}

pub fn cut(
    part: u64,
    words: &mut [u64],
    cells: &mut [u16],
    otp: &mut [u16],
    debris: &[u16],
) -> Result<(), Refusal>
    ensures refusal { number (refusal_of result) ≡ (face_cut part words.old cells.old otp.old debris.now).refusal }
    ensures words_after { words.new ≡ (face_cut part words.old cells.old otp.old debris.now).image }
    ensures cells_after { cells.new ≡ (face_cut part words.old cells.old otp.old debris.now).cells }
    ensures otp_after { otp.new ≡ (face_cut part words.old cells.old otp.old debris.now).otp }
{
    if !calls::stands(part, words) {
        return Err(Refusal::State);
    }
    let record = words.as_mut_array().unwrap();
    let device = image::device_of(record);
    elapsed::cut(calls::part_named(part), device, cells, otp, debris)?;
    effects::put_cut(record, device.bits);
    Ok(())
}
