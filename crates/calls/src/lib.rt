// What every call from C begins and ends with: which part its number names, which record its words stand for, and its answer as one
// number.
#![tactic(auto)]

ghost use Rattle.std.specs.Prelude.{◌≡◌, ◌+◌, ◌*◌, ◌<◌, MatchOption, true, false};
ghost use Rattle.plain.specs.Refusals.{number};
ghost use Rattle.face.specs.Face.{is_part, part_named, stands, array_number, refusal_of, word_of, number_or_none};
ghost use Rattle.face.specs.Range.{packed_range};

use geometry::Part;
use layout::RECORD_WORDS;
use plain::{Array, Refusal};

// "No block, no word, no array, no clock, no charge."
const NONE: u64 = 0xffffffffffffffff;

pub fn is_part(part: u64) -> bool
    ensures { result ≡ is_part part }
{
    part < 2
}

// The part of that number, if there is one. No TryFrom: `Part` is of a crate that knows nothing of C's numbers.
pub fn part(part: u64) -> Option<Part>
    ensures { MatchOption result (is_part part ≡ false) (λ p. (is_part part ≡ true) × (p ≡ part_named part)) }
{
    if is_part(part) {
        Some(part_named(part))
    } else {
        None
    }
}

pub fn part_named(part: u64) -> Part
    ensures { result ≡ part_named part }
{
    if part == 1 {
        Part::full()
    } else {
        Part::small()
    }
}

#[tactic(auto, unfolding(face::specs::Face::stands))]
pub fn stands(part: u64, words: &[u64]) -> bool
    ensures { result ≡ stands part words.now }
{
    is_part(part) && shape::is_well_formed(words)
}

// The record that they stand for, if they do.
#[tactic(auto, using(face::proofs::Faces::whole))]
pub fn record(part: u64, words: &[u64]) -> Option<&[u64; RECORD_WORDS]>
    ensures { MatchOption result (stands part words.now ≡ false) (λ r. (stands part words.now ≡ true) × (r.now ≡ words.now)) }
{
    if stands(part, words) {
        words.as_array()
    } else {
        None
    }
}

// The refusal's number, 0 if there is none.
#[tactic(auto, unfolding(plain::specs::Refusals::number))]
pub fn number(answer: Result<(), Refusal>) -> u64
    ensures { result ≡ number (refusal_of answer) }
{
    match answer {
        Ok(()) => 0,
        Err(refusal) => answers::number_of(refusal),
    }
}

// "the word in the low 16 bits, the refusal above them"
pub fn packed(refusal: Refusal, word: u16) -> u64
    ensures { result ≡ 65536 * number refusal + word }
{
    65536 * answers::number_of(refusal) + word as u64
}

// The word of a read, or its refusal and the word 0.
pub fn word_or_refusal(answer: Result<u16, Refusal>) -> u64
    ensures { result ≡ 65536 * number (refusal_of answer) + word_of answer }
{
    match answer {
        Ok(word) => packed(Refusal::Done, word),
        Err(refusal) => packed(refusal, 0),
    }
}

pub fn number_or_none(answer: Option<u64>) -> u64
    ensures { result ≡ number_or_none answer }
{
    answer.unwrap_or(NONE)
}

// "refusal << 33 | array << 32 | first word, the latter two 0 if it is refused": C's number, whose parts stand side by side.
pub fn packed_range(refusal: Refusal, array: Array, first: usize) -> u64
    requires { number refusal ≡ 0 → first < 4294967296 }
    ensures { result ≡ packed_range (number refusal) array first }
{
    let number = answers::number_of(refusal);
    if number != 0 {
        return 8589934592 * number;
    }
    4294967296 * array_number(array) + first as u64
}

// 0 is the cells, 1 the one-time words: C's numbers, and no `From`, as `Array` is of a crate that knows nothing of C.
pub fn array_number(array: Array) -> u64
    ensures { result ≡ array_number array }
{
    match array {
        Array::Main => 0,
        Array::OneTime => 1,
    }
}
