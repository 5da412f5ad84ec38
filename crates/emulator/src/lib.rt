// The C face: a device whose record C holds as words, and whose cells and one-time words it lends (include/k5l2931cam.h). Every part
// number, record, length and number is answered; there is nothing to check before a call. An idle device goes a short way. The long
// one is called in two places, so the compiler leaves it out of line: what it saves on the stack is not saved for the short one.
#![tactic(auto)]

ghost use Rattle.std.specs.Prelude.{◌≡◌};
ghost use Rattle.face.specs.Face.{packed, fresh_refusal, fresh_image, carried_refusal, carried_image, face_read, face_write, face_wait, face_cut};
ghost use Rattle.face.specs.Range.{face_range};

pub mod addresses;
pub mod asked_of;
pub mod foreseen;

pub fn k5l_fresh(words: &mut [u64]) -> u64
    ensures value { result ≡ fresh_refusal words.old }
    ensures words_after { words.new ≡ fresh_image words.old }
{
    calls::number(idling::fresh::make(words))
}

pub fn k5l_carry(stored: &[u64], words: &mut [u64]) -> u64
    ensures value { result ≡ carried_refusal stored.now words.old }
    ensures words_after { words.new ≡ carried_image stored.now words.old }
{
    calls::number(carrying::carry(stored, words))
}

pub fn k5l_read(part: u64, words: &mut [u64], cells: &[u16], otp: &[u16], address: usize) -> u64
    ensures value { result ≡ packed (face_read part words.old cells.now otp.now address) }
    ensures words_after { words.new ≡ (face_read part words.old cells.now otp.now address).image }
{
    if !calls::is_part(part) {
        return calls::word_or_refusal(bus::read(part, words, cells, otp, address));
    }
    if shape::is_idle(words) {
        return calls::word_or_refusal(idling::read(part, words, cells, otp, address));
    }
    calls::word_or_refusal(bus::read(part, words, cells, otp, address))
}

pub fn k5l_write(
    part: u64,
    words: &mut [u64],
    cells: &[u16],
    otp: &[u16],
    address: usize,
    word: u16,
) -> u64
    ensures value { result ≡ (face_write part words.old cells.now otp.now address word).refusal }
    ensures words_after { words.new ≡ (face_write part words.old cells.now otp.now address word).image }
{
    if !calls::is_part(part) {
        return calls::number(bus::write(part, words, cells, otp, address, word));
    }
    if shape::is_idle(words) {
        return calls::number(idling::write(part, words, cells, otp, address, word));
    }
    calls::number(bus::write(part, words, cells, otp, address, word))
}

pub fn k5l_wait(
    part: u64,
    words: &mut [u64],
    cells: &mut [u16],
    otp: &mut [u16],
    microseconds: u64,
) -> u64
    ensures value { result ≡ (face_wait part words.old cells.old otp.old microseconds).refusal }
    ensures words_after { words.new ≡ (face_wait part words.old cells.old otp.old microseconds).image }
    ensures cells_after { cells.new ≡ (face_wait part words.old cells.old otp.old microseconds).cells }
    ensures otp_after { otp.new ≡ (face_wait part words.old cells.old otp.old microseconds).otp }
{
    if !calls::is_part(part) {
        return calls::number(lapses::wait(part, words, cells, otp, microseconds));
    }
    if shape::is_idle(words) {
        return calls::number(idling::wait(part, words, cells, otp, microseconds));
    }
    calls::number(lapses::wait(part, words, cells, otp, microseconds))
}

pub fn k5l_cut(
    part: u64,
    words: &mut [u64],
    cells: &mut [u16],
    otp: &mut [u16],
    debris: &[u16],
) -> u64
    ensures value { result ≡ (face_cut part words.old cells.old otp.old debris.now).refusal }
    ensures words_after { words.new ≡ (face_cut part words.old cells.old otp.old debris.now).image }
    ensures cells_after { cells.new ≡ (face_cut part words.old cells.old otp.old debris.now).cells }
    ensures otp_after { otp.new ≡ (face_cut part words.old cells.old otp.old debris.now).otp }
{
    calls::number(lapses::cut(part, words, cells, otp, debris))
}

// An idle device has no range to hand back, so it is asked as any other.
pub fn k5l_range(
    part: u64,
    words: &[u64],
    cells: &[u16],
    otp: &[u16],
    first: usize,
    count: usize,
) -> u64
    ensures { result ≡ face_range part words.now cells.now otp.now first count }
{
    spans::range(part, words, cells, otp, first, count)
}
