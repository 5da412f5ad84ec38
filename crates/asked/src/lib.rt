// What C asks of a record besides its four events. An idle device is asked by a way of its own, as the most common case; what several
// questions share is inlined, so that this way hands nothing over in memory.
#![tactic(auto)]

ghost use Rattle.std.specs.Prelude.{◌≡◌, MatchOption, None, true, false};
ghost use Rattle.layout.specs.Image.{device_of};
ghost use Rattle.face.specs.Face.{stands_sound, number_or_none, place_number, spot_number, spot_array, face_clock, face_charge};
ghost use Rattle.asked.specs.Asked.{face_exposed_block, face_exposed_word, face_exposed_array, face_reads_cells};

use cutting::Exposed;
use meter::Meter;

#[inline(always)]
pub fn is_sound(part: u64, words: &[u64]) -> bool
    ensures { result ≡ stands_sound part words.now }
{
    if shape::is_idle(words) {
        return idling::is_sound(part, words);
    }
    stands_sound(part, words)
}

// The same of a device in any state.
#[tactic(auto, unfolding(face::specs::Face::stands_sound))]
fn stands_sound(part: u64, words: &[u64]) -> bool
    ensures { result ≡ stands_sound part words.now }
{
    let Some(record) = calls::record(part, words) else {
        return false;
    };
    soundness::is_sound(calls::part_named(part), image::device_of(record))
}

// What a cut would change if it came now.
#[inline(always)]
#[tactic(auto, unfolding(crate::specs::Asked::face_exposed_block, crate::specs::Asked::face_exposed_word, crate::specs::Asked::face_exposed_array, face::specs::Face::place_number, face::specs::Face::spot_number, face::specs::Face::spot_array), using(crate::proofs::Idle::no_block, crate::proofs::Idle::no_word, crate::proofs::Idle::no_array))]
fn exposed(part: u64, words: &[u64]) -> Exposed
    ensures block { place_number result.block ≡ face_exposed_block part words.now }
    ensures word { spot_number result.word ≡ face_exposed_word part words.now }
    ensures array { spot_array result.word ≡ face_exposed_array part words.now }
{
    // It has begun nothing.
    if shape::is_idle(words) {
        return nothing();
    }
    let Some(record) = calls::record(part, words) else {
        return nothing();
    };
    judged::exposed(calls::part_named(part), image::device_of(record))
}

fn nothing() -> Exposed
    ensures block { result.block ≡ None }
    ensures word { result.word ≡ None }
{
    Exposed {
        block: None,
        word: None,
    }
}

#[tactic(auto, unfolding(face::specs::Face::place_number))]
pub fn exposed_block(part: u64, words: &[u64]) -> Option<u64>
    ensures { number_or_none result ≡ face_exposed_block part words.now }
{
    let block = exposed(part, words).block?;
    Some(block as u64)
}

// Of a word, its address
#[tactic(auto, unfolding(face::specs::Face::spot_number))]
pub fn exposed_word(part: u64, words: &[u64]) -> Option<u64>
    ensures { number_or_none result ≡ face_exposed_word part words.now }
{
    let spot = exposed(part, words).word?;
    Some(spot.at as u64)
}

// and its array.
#[tactic(auto, unfolding(face::specs::Face::spot_array))]
pub fn exposed_array(part: u64, words: &[u64]) -> Option<u64>
    ensures { number_or_none result ≡ face_exposed_array part words.now }
{
    let spot = exposed(part, words).word?;
    Some(calls::array_number(spot.array))
}

#[tactic(auto, using(crate::proofs::Idle::every_bank, std::proofs::lemmas::Bool::Decides::nat_tests))]
pub fn reads_cells(part: u64, words: &[u64], bank: usize) -> bool
    ensures { result ≡ face_reads_cells part words.now bank }
{
    // Called in two places, the long way is left out of line: what it saves on the stack is not saved for an idle device.
    if !calls::is_part(part) {
        return gives_cells(part, words, bank);
    }
    if shape::is_idle(words) {
        if calls::part_named(part).banks() <= bank {
            return false;
        }
        return idling::is_sound(part, words);
    }
    gives_cells(part, words, bank)
}

// The same of a device in any state.
#[tactic(auto, unfolding(crate::specs::Asked::face_reads_cells), using(std::proofs::lemmas::Bool::Decides::nat_tests))]
fn gives_cells(part: u64, words: &[u64], bank: usize) -> bool
    ensures { result ≡ face_reads_cells part words.now bank }
{
    let Some(record) = calls::record(part, words) else {
        return false;
    };
    let named = calls::part_named(part);
    if named.banks() <= bank {
        return false;
    }
    judged::reads_cells(named, image::device_of(record), bank)
}

// The meter, of a sound device.
#[inline(always)]
#[tactic(auto, unfolding(layout::specs::Image::device_of), using(face::proofs::Faces::sound_whole))]
fn meter(part: u64, words: &[u64]) -> Option<Meter>
    ensures { MatchOption result (stands_sound part words.now ≡ false) (λ m. (stands_sound part words.now ≡ true) × (m ≡ (device_of words.now).meter)) }
{
    if !is_sound(part, words) {
        return None;
    }
    let record = words.as_array().unwrap();
    Some(image::meter_of(record))
}

#[tactic(auto, unfolding(face::specs::Face::face_clock))]
pub fn clock(part: u64, words: &[u64]) -> Option<u64>
    ensures { number_or_none result ≡ face_clock part words.now }
{
    let meter = meter(part, words)?;
    Some(meter.clock)
}

#[tactic(auto, unfolding(face::specs::Face::face_charge))]
pub fn charge(part: u64, words: &[u64]) -> Option<u64>
    ensures { number_or_none result ≡ face_charge part words.now }
{
    let meter = meter(part, words)?;
    Some(meter.charge)
}
