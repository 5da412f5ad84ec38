// What a program writes, and all that is asked of it: no other crate takes its address and data apart, but those of the words for C.
#![tactic(auto)]

ghost use Rattle.std.specs.Prelude.{◌≡◌, true, ◌≤◌, length};
ghost use Rattle.plain.specs.Lent.{lent, Whole};
ghost use Rattle.plain.specs.Programs.{writing, first_word, array_written, lies_in, block_written, bank_written, barred, barred_as, dq7, raises, finished, debris_words, cut_off};

use geometry::Part;
use plain::{Array, Refusal, Written, figures};
use protection::Protection;

// "address and all 16 data bits of a program"
pub fn writing(array: Array, address: usize, word: u16) -> Written
    ensures { result ≡ writing array address word }
{
    Written {
        at: address,
        word,
        array,
    }
}

// The word that it is named by, and its array.
#[tactic(auto, unfolding(plain::specs::Programs::first_word))]
pub fn first_word(written: Written) -> usize
    ensures { result ≡ first_word written }
{
    written.at
}

#[tactic(auto, unfolding(plain::specs::Programs::array_written))]
pub fn array_written(written: Written) -> Array
    ensures { result ≡ array_written written }
{
    written.array
}

#[tactic(auto, unfolding(plain::specs::Programs::lies_in))]
pub fn lies_in(part: Part, written: Written) -> bool
    ensures { result ≡ lies_in part written }
{
    match written.array {
        Array::Main => written.at < part.words(),
        Array::OneTime => written.at < figures::OTP_WORDS,
    }
}

#[tactic(auto, unfolding(plain::specs::Programs::block_written))]
pub fn block_written(part: Part, written: Written) -> usize
    ensures { result ≡ block_written part written }
{
    part.block_of(written.at)
}

#[tactic(auto, unfolding(plain::specs::Programs::bank_written))]
pub fn bank_written(part: Part, written: Written) -> usize
    ensures { result ≡ bank_written part written }
{
    part.bank_of(written.at)
}

// PROTECTED by its block; "OTPLOCKED, in the place of PROTECTED", by its word.
#[tactic(auto, unfolding(plain::specs::Programs::barred))]
pub fn is_barred(part: Part, bits: Protection, written: Written) -> bool
    ensures { result ≡ barred part bits written }
{
    match written.array {
        Array::Main => bits.is_protected(part.block_of(written.at)),
        Array::OneTime => bits.locks_word(written.at),
    }
}

#[tactic(auto, unfolding(plain::specs::Programs::barred_as))]
pub fn barred_as(written: Written) -> Refusal
    ensures { result ≡ barred_as written }
{
    match written.array {
        Array::Main => Refusal::Protected,
        Array::OneTime => Refusal::OtpLocked,
    }
}

// "Program: DQ7 is the complement of data bit 7"
#[tactic(auto, unfolding(plain::specs::Programs::dq7))]
pub fn dq7(written: Written) -> bool
    ensures { result ≡ dq7 written }
{
    written.word / 128 % 2 == 0
}

// Document 02, request 6: "asked for a 1 where the cell has 0", by what the lent word holds now.
#[tactic(auto, unfolding(plain::specs::Programs::raises))]
pub fn raises(written: Written, cells: &[u16], otp: &[u16]) -> bool
    ensures { result ≡ raises written (lent cells.now otp.now) }
{
    let words = written.array.among(cells, otp);
    cells::raises(words, written.at, written.word)
}

// "A program .. leaves old AND data." An arm for each array, here and below: the checker takes no mutable loan that is one of two.
#[tactic(auto, unfolding(plain::specs::Programs::finished))]
pub fn finish(part: Part, written: Written, cells: &mut [u16], otp: &mut [u16])
    requires { Whole part (lent cells.old otp.old) × (lies_in part written ≡ true) }
    ensures cells_after { cells.new ≡ (finished written (lent cells.old otp.old)).cells }
    ensures otp_after { otp.new ≡ (finished written (lent cells.old otp.old)).otp }
{
    match written.array {
        Array::Main => cells::program(cells, written.at, written.word),
        Array::OneTime => cells::program(otp, written.at, written.word),
    }
}

// "a begun program needs one" debris word
#[tactic(auto, unfolding(plain::specs::Programs::debris_words))]
pub fn debris_words(written: Written) -> usize
    ensures { result ≡ debris_words written }
{
    1
}

// "The program's word becomes old AND (data OR debris)": the debris starts with its own.
#[tactic(auto, unfolding(plain::specs::Programs::cut_off, plain::specs::Programs::debris_for, plain::specs::Programs::debris_words))]
pub fn cut_off(part: Part, written: Written, cells: &mut [u16], otp: &mut [u16], debris: &[u16])
    requires whole { Whole part (lent cells.old otp.old) × (lies_in part written ≡ true) }
    requires written_in_bounds { debris_words written ≤ length debris.now }
    ensures cells_after { cells.new ≡ (cut_off written debris.now (lent cells.old otp.old)).cells }
    ensures otp_after { otp.new ≡ (cut_off written debris.now (lent cells.old otp.old)).otp }
{
    match written.array {
        Array::Main => cells::cut_program(cells, written.at, written.word, debris[0]),
        Array::OneTime => cells::cut_program(otp, written.at, written.word, debris[0]),
    }
}
