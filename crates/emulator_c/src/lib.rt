// The C face (include/k5l2931cam.h): each function of `emulator`, under its name for C and with its contract. A crate is a
// library, of which statements speak, or a static library, which C links, and not both.
#![tactic(auto)]

ghost use Rattle.std.specs.Prelude.{◌≡◌};
ghost use Rattle.face.specs.Face.{packed, fresh_refusal, fresh_image, carried_refusal, carried_image, face_read, face_write, face_wait, face_cut};
ghost use Rattle.face.specs.Range.{face_range};

mod addresses;
mod asked_of;
mod foreseen;

#[unsafe(no_mangle)]
pub extern "C" fn k5l_fresh(words: &mut [u64]) -> u64
    ensures value { result ≡ fresh_refusal words.old }
    ensures words_after { words.new ≡ fresh_image words.old }
{
    emulator::k5l_fresh(words)
}

#[unsafe(no_mangle)]
pub extern "C" fn k5l_carry(stored: &[u64], words: &mut [u64]) -> u64
    ensures value { result ≡ carried_refusal stored.now words.old }
    ensures words_after { words.new ≡ carried_image stored.now words.old }
{
    emulator::k5l_carry(stored, words)
}

#[unsafe(no_mangle)]
pub extern "C" fn k5l_read(
    part: u64,
    words: &mut [u64],
    cells: &[u16],
    otp: &[u16],
    address: usize,
) -> u64
    ensures value { result ≡ packed (face_read part words.old cells.now otp.now address) }
    ensures words_after { words.new ≡ (face_read part words.old cells.now otp.now address).image }
{
    emulator::k5l_read(part, words, cells, otp, address)
}

#[unsafe(no_mangle)]
pub extern "C" fn k5l_write(
    part: u64,
    words: &mut [u64],
    cells: &[u16],
    otp: &[u16],
    address: usize,
    word: u16,
) -> u64
    ensures value { result ≡ (face_write part words.old cells.now otp.now address word).refusal }
    ensures words_after { words.new ≡ (face_write part words.old cells.now otp.now address word).image }
{
    emulator::k5l_write(part, words, cells, otp, address, word)
}

#[unsafe(no_mangle)]
pub extern "C" fn k5l_wait(
    part: u64,
    words: &mut [u64],
    cells: &mut [u16],
    otp: &mut [u16],
    microseconds: u64,
) -> u64
    ensures value { result ≡ (face_wait part words.old cells.old otp.old microseconds).refusal }
    ensures words_after { words.new ≡ (face_wait part words.old cells.old otp.old microseconds).image }
    ensures cells_after { cells.new ≡ (face_wait part words.old cells.old otp.old microseconds).cells }
    ensures otp_after { otp.new ≡ (face_wait part words.old cells.old otp.old microseconds).otp }
{
    emulator::k5l_wait(part, words, cells, otp, microseconds)
}

#[unsafe(no_mangle)]
pub extern "C" fn k5l_cut(
    part: u64,
    words: &mut [u64],
    cells: &mut [u16],
    otp: &mut [u16],
    debris: &[u16],
) -> u64
    ensures value { result ≡ (face_cut part words.old cells.old otp.old debris.now).refusal }
    ensures words_after { words.new ≡ (face_cut part words.old cells.old otp.old debris.now).image }
    ensures cells_after { cells.new ≡ (face_cut part words.old cells.old otp.old debris.now).cells }
    ensures otp_after { otp.new ≡ (face_cut part words.old cells.old otp.old debris.now).otp }
{
    emulator::k5l_cut(part, words, cells, otp, debris)
}

#[unsafe(no_mangle)]
pub extern "C" fn k5l_range(
    part: u64,
    words: &[u64],
    cells: &[u16],
    otp: &[u16],
    first: usize,
    count: usize,
) -> u64
    ensures { result ≡ face_range part words.now cells.now otp.now first count }
{
    emulator::k5l_range(part, words, cells, otp, first, count)
}
