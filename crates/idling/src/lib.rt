// Events on an idle device, at ground with nothing that runs or is suspended and the one-time block not entered: what an emulator
// asks most; and whether it is sound. They read the few words that matter and leave the others where they are.
#![tactic(auto)]

ghost use Rattle.std.specs.Prelude.{◌≡◌, true};
ghost use Rattle.plain.specs.Refusals.{number};
ghost use Rattle.layout.specs.Image.{idle_words};
ghost use Rattle.face.specs.Entry.{face_entry};
ghost use Rattle.face.specs.Face.{refusal_of, word_of, stands_sound, face_read, face_write, face_wait};

pub mod fresh;

use plain::{Command, Cycle, Refusal, figures};

pub fn read(
    part: u64,
    words: &[u64],
    cells: &[u16],
    otp: &[u16],
    address: usize,
) -> Result<u16, Refusal>
    requires { idle_words words.now ≡ true }
    ensures refusal { number (refusal_of result) ≡ (face_read part words.now cells.now otp.now address).refusal }
    ensures word { word_of result ≡ (face_read part words.now cells.now otp.now address).word }
    ensures words_kept { (face_read part words.now cells.now otp.now address).image ≡ words.now }
{
    entry(part, words, cells, otp)?;
    match cells.get(address) {
        Some(word) => Ok(*word),
        None => Err(Refusal::Address),
    }
}

// "F0H returns to ground", where it stands; the first unlock write goes on, any other write is SEQUENCE.
pub fn write(
    part: u64,
    words: &mut [u64],
    cells: &[u16],
    otp: &[u16],
    address: usize,
    word: u16,
) -> Result<(), Refusal>
    requires { idle_words words.old ≡ true }
    ensures refusal { number (refusal_of result) ≡ (face_write part words.old cells.now otp.now address word).refusal }
    ensures words_after { words.new ≡ (face_write part words.old cells.now otp.now address word).image }
{
    entry(part, words, cells, otp)?;
    if cells.len() <= address {
        return Err(Refusal::Address);
    }
    if cycles::is_first_unlock(address, word) {
        storing::put_command(
            words.as_mut_array().unwrap(),
            Command::Entering(Cycle::Unlock),
        );
        return Ok(());
    }
    if word % 256 == 0xf0 {
        return Ok(());
    }
    Err(Refusal::Sequence)
}

// Only the meter moves.
pub fn wait(
    part: u64,
    words: &mut [u64],
    cells: &[u16],
    otp: &[u16],
    microseconds: u64,
) -> Result<(), Refusal>
    requires { idle_words words.old ≡ true }
    ensures refusal { number (refusal_of result) ≡ (face_wait part words.old cells.now otp.now microseconds).refusal }
    ensures words_after { words.new ≡ (face_wait part words.old cells.now otp.now microseconds).image }
    ensures cells_kept { (face_wait part words.old cells.now otp.now microseconds).cells ≡ cells.now }
    ensures otp_kept { (face_wait part words.old cells.now otp.now microseconds).otp ≡ otp.now }
{
    entry(part, words, cells, otp)?;
    let named = calls::part_named(part);
    let record = words.as_mut_array().unwrap();
    let meter = image::meter_of(record);
    // The clock is at most its limit, so the difference is there; the sum might not be.
    if figures::clock_limit(named) - meter.clock < microseconds {
        return Err(Refusal::Clock);
    }
    storing::put_meter(record, moments::stood_by(named, meter, microseconds));
    Ok(())
}

// The checks that every event begins with: STATE, then CELLS, of either array.
fn entry(part: u64, words: &[u64], cells: &[u16], otp: &[u16]) -> Result<(), Refusal>
    requires { idle_words words.now ≡ true }
    ensures { result ≡ face_entry part words.now cells.now otp.now }
{
    if !is_sound(part, words) {
        return Err(Refusal::State);
    }
    if cells.len() != calls::part_named(part).words() {
        return Err(Refusal::Cells);
    }
    if otp.len() != figures::OTP_WORDS {
        return Err(Refusal::Cells);
    }
    Ok(())
}

pub fn is_sound(part: u64, words: &[u64]) -> bool
    requires { idle_words words.now ≡ true }
    ensures { result ≡ stands_sound part words.now }
{
    let Some(named) = calls::part(part) else {
        return false;
    };
    let record = words.as_array().unwrap();
    soundness::is_sound_idle(named, image::meter_of(record), image::bits_of(record))
}
