// What C asks of what is to come. Of an idle device nothing is, and a cut needs no debris: it is told so by a way of its own; what several
// questions share is inlined, so that this way hands nothing over in memory.
#![tactic(auto)]

ghost use Rattle.std.specs.Prelude.{◌≡◌, None, Some, true};
ghost use Rattle.std.specs.Prelude.{if◌then◌else◌};
ghost use Rattle.layout.specs.Image.{idle_words};
ghost use Rattle.face.specs.Face.{stands_sound, number_or_none};
ghost use Rattle.outlook.specs.Foreseen.{change_time, change_block, change_word, change_array, face_until_end, face_until_change, face_changing_block, face_changing_word, face_changing_array, face_debris_needed};

use remaining::Change;

#[tactic(auto, unfolding(crate::specs::Foreseen::change_time))]
fn change_time(change: Change) -> Option<u64>
    ensures { number_or_none result ≡ change_time change }
{
    match change {
        Change::Never => None,
        Change::WindowEnds(after) => Some(after),
        Change::RecoveryEnds(after) => Some(after),
        Change::WordDone(finish) => Some(finish.after),
        Change::BlockDone(finish) => Some(finish.after),
    }
}

#[tactic(auto, unfolding(crate::specs::Foreseen::change_block))]
fn change_block(change: Change) -> Option<u64>
    ensures { number_or_none result ≡ change_block change }
{
    match change {
        Change::BlockDone(finish) => Some(finish.at as u64),
        _ => None,
    }
}

#[tactic(auto, unfolding(crate::specs::Foreseen::change_word))]
fn change_word(change: Change) -> Option<u64>
    ensures { number_or_none result ≡ change_word change }
{
    match change {
        Change::WordDone(finish) => Some(finish.at as u64),
        _ => None,
    }
}

#[tactic(auto, unfolding(crate::specs::Foreseen::change_array))]
fn change_array(change: Change) -> Option<u64>
    ensures { number_or_none result ≡ change_array change }
{
    match change {
        Change::WordDone(finish) => Some(calls::array_number(finish.array)),
        _ => None,
    }
}

// A figure of an idle device: 0, if it is sound.
fn idle_figure(part: u64, words: &[u64]) -> Option<u64>
    requires { idle_words words.now ≡ true }
    ensures { result ≡ (if stands_sound part words.now then Some 0 else None) }
{
    if idling::is_sound(part, words) {
        Some(0)
    } else {
        None
    }
}

// What the device changes next.
#[inline(always)]
#[tactic(auto, unfolding(crate::specs::Foreseen::face_until_change, crate::specs::Foreseen::face_changing_block, crate::specs::Foreseen::face_changing_word, crate::specs::Foreseen::face_changing_array, crate::specs::Foreseen::change_time, crate::specs::Foreseen::change_block, crate::specs::Foreseen::change_word, crate::specs::Foreseen::change_array), using(crate::proofs::Idle::no_change, crate::proofs::Idle::no_changing_block, crate::proofs::Idle::no_changing_word, crate::proofs::Idle::no_changing_array))]
fn change(part: u64, words: &[u64]) -> Change
    ensures time { change_time result ≡ face_until_change part words.now }
    ensures block { change_block result ≡ face_changing_block part words.now }
    ensures word { change_word result ≡ face_changing_word part words.now }
    ensures array { change_array result ≡ face_changing_array part words.now }
{
    if shape::is_idle(words) {
        return Change::Never;
    }
    let Some(record) = calls::record(part, words) else {
        return Change::Never;
    };
    judged::foreseen::until_change(calls::part_named(part), image::device_of(record))
}

pub fn until_change(part: u64, words: &[u64]) -> Option<u64>
    ensures { number_or_none result ≡ face_until_change part words.now }
{
    change_time(change(part, words))
}

pub fn changing_block(part: u64, words: &[u64]) -> Option<u64>
    ensures { number_or_none result ≡ face_changing_block part words.now }
{
    change_block(change(part, words))
}

pub fn changing_word(part: u64, words: &[u64]) -> Option<u64>
    ensures { number_or_none result ≡ face_changing_word part words.now }
{
    change_word(change(part, words))
}

pub fn changing_array(part: u64, words: &[u64]) -> Option<u64>
    ensures { number_or_none result ≡ face_changing_array part words.now }
{
    change_array(change(part, words))
}

#[tactic(auto, unfolding(crate::specs::Foreseen::face_until_end), using(crate::proofs::Idle::ended))]
pub fn until_end(part: u64, words: &[u64]) -> Option<u64>
    ensures { number_or_none result ≡ face_until_end part words.now }
{
    if shape::is_idle(words) {
        return idle_figure(part, words);
    }
    let record = calls::record(part, words)?;
    judged::foreseen::until_end(calls::part_named(part), image::device_of(record))
}

#[tactic(auto, unfolding(crate::specs::Foreseen::face_debris_needed), using(crate::proofs::Idle::no_debris))]
pub fn debris_needed(part: u64, words: &[u64]) -> Option<u64>
    ensures { number_or_none result ≡ face_debris_needed part words.now }
{
    if shape::is_idle(words) {
        return idle_figure(part, words);
    }
    let record = calls::record(part, words)?;
    judged::foreseen::debris_needed(calls::part_named(part), image::device_of(record))
}
