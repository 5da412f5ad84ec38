// Do the words that a C program holds stand for a record, and for an idle one?
#![tactic(auto)]

ghost use Rattle.std.specs.Prelude.{◌≡◌};
ghost use Rattle.layout.specs.Image.{marked, well_formed, idle_words};

mod forms;
mod sections;

use layout::RECORD_WORDS;

// Do the words stand for a record? Whether that record is sound is another question.
#[tactic(auto, unfolding(layout::specs::Image::well_formed, layout::specs::Image::marked), using(std::proofs::lemmas::Bool::Decides::nat_tests))]
pub fn is_well_formed(words: &[u64]) -> bool
    ensures { result ≡ well_formed words.now }
{
    let Some(record) = words.as_array() else {
        return false;
    };
    is_marked(record)
        && forms::command_fits(record[layout::COMMAND_AT], record[layout::PLACE_AT])
        && forms::operation_fits(record)
        && forms::recovery_fits(record)
        && forms::entered_fits(record)
}

// Do they stand for an idle device? It is asked first at each event, as the most common case.
#[tactic(auto, unfolding(layout::specs::Image::idle_words))]
pub fn is_idle(words: &[u64]) -> bool
    ensures { result ≡ idle_words words.now }
{
    let Some(record) = words.as_array() else {
        return false;
    };
    // The numbers of a command and of an operation first: they tell nearly every device that is not idle.
    is_marked(record)
        && sections::are_unused(record, layout::COMMAND_AT, layout::LIST_AT)
        && sections::are_unused(record, layout::LIST_AT, layout::DYB_AT)
        && sections::are_unused(record, layout::RECOVERY_AT, layout::SEALED_AT)
}

// Words of a record have the layout's number, and one bit for each lock.
#[tactic(auto, unfolding(layout::specs::Image::marked))]
fn is_marked(words: &[u64; RECORD_WORDS]) -> bool
    ensures { result ≡ marked words.now }
{
    words[layout::LAYOUT_AT] == layout::LAYOUT
        && words[layout::LOCK_AT] < 2
        && words[layout::SEALED_AT] < 2
}
