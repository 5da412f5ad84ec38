// Bus reads and writes of a device in any state: the record is taken out of its words, the cycle tells what it does, and what
// changes is stored. `stands` is asked and then the array is made, as a loan to be changed that is lent on a condition gets no proof.
#![tactic(auto)]

ghost use Rattle.std.specs.Prelude.{◌≡◌};
ghost use Rattle.plain.specs.Refusals.{number};
ghost use Rattle.face.specs.Face.{refusal_of, word_of, face_read, face_write};

use plain::Refusal;

pub fn read(
    part: u64,
    words: &mut [u64],
    cells: &[u16],
    otp: &[u16],
    address: usize,
) -> Result<u16, Refusal>
    ensures refusal { number (refusal_of result) ≡ (face_read part words.old cells.now otp.now address).refusal }
    ensures word { word_of result ≡ (face_read part words.old cells.now otp.now address).word }
    ensures words_after { words.new ≡ (face_read part words.old cells.now otp.now address).image }
{
    if !calls::stands(part, words) {
        return Err(Refusal::State);
    }
    let record = words.as_mut_array().unwrap();
    let device = image::device_of(record);
    let seen = access::read(calls::part_named(part), device, cells, otp, address)?;
    storing::put_toggles(record, seen.operation);
    Ok(seen.word)
}

pub fn write(
    part: u64,
    words: &mut [u64],
    cells: &[u16],
    otp: &[u16],
    address: usize,
    word: u16,
) -> Result<(), Refusal>
    ensures refusal { number (refusal_of result) ≡ (face_write part words.old cells.now otp.now address word).refusal }
    ensures words_after { words.new ≡ (face_write part words.old cells.now otp.now address word).image }
{
    if !calls::stands(part, words) {
        return Err(Refusal::State);
    }
    let record = words.as_mut_array().unwrap();
    let device = image::device_of(record);
    let effect = access::write(calls::part_named(part), device, cells, otp, address, word);
    effects::put_effect(record, effect)
}
