// What C asks of the addresses and blocks of a part, by the part's number.
#![tactic(auto)]

ghost use Rattle.std.specs.Prelude.{◌≡◌, ◌&&◌, MatchOption, true, false, ltb};
ghost use Rattle.geometry.specs.Parts.{word_count};
ghost use Rattle.face.specs.Face.{is_part, part_named, number_or_none, face_first_word, face_block_words};
ghost use Rattle.lookups.specs.Addresses.{face_block_of, face_bank_of};

use geometry::Part;

#[tactic(auto, unfolding(crate::specs::Addresses::face_block_of))]
pub fn block_of(part: u64, address: usize) -> Option<u64>
    ensures { number_or_none result ≡ face_block_of part address }
{
    let part = part_with(part, address)?;
    Some(part.block_of(address) as u64)
}

#[tactic(auto, unfolding(crate::specs::Addresses::face_bank_of))]
pub fn bank_of(part: u64, address: usize) -> Option<u64>
    ensures { number_or_none result ≡ face_bank_of part address }
{
    let part = part_with(part, address)?;
    Some(part.bank_of(address) as u64)
}

// The part of that number, if it has the address.
fn part_with(part: u64, address: usize) -> Option<Part>
    ensures { MatchOption result ((is_part part && ltb address (word_count (part_named part))) ≡ false) (λ p. ((is_part part && ltb address (word_count (part_named part))) ≡ true) × (p ≡ part_named part)) }
{
    let named = calls::part(part)?;
    if address < named.words() {
        Some(named)
    } else {
        None
    }
}

#[tactic(auto, unfolding(face::specs::Face::face_first_word))]
pub fn first_word(part: u64, block: usize) -> usize
    ensures { result ≡ face_first_word part block }
{
    match calls::part(part) {
        Some(part) => part.first_of(block),
        None => 0,
    }
}

#[tactic(auto, unfolding(face::specs::Face::face_block_words))]
pub fn block_words(part: u64, block: usize) -> usize
    ensures { result ≡ face_block_words part block }
{
    match calls::part(part) {
        Some(part) => part.size_of(block),
        None => 0,
    }
}
