// Which words of a command and of an operation stand for one: a number that there is, and 0 in each word that is not in use.
ghost use Rattle.std.specs.Prelude.{◌≡◌};
ghost use Rattle.layout.specs.Commands.{beside, command_fits};
ghost use Rattle.layout.specs.Operations.{programs};
ghost use Rattle.layout.specs.Image.{erase_fits, program_fits, operation_fits, recovery_fits, entered_fits};

use crate::sections;
use layout::RECORD_WORDS;

// Is there a command of that number, and does it have a place if one is told?
#[tactic(auto, unfolding(layout::specs::Commands::command_fits))]
pub fn command_fits(number: u64, place: u64) -> bool
    ensures { result ≡ command_fits (beside number place) }
{
    number < 15 && (matches!(number, 9 | 11) || place == 0)
}

#[tactic(auto, unfolding(layout::specs::Image::operation_fits))]
pub fn operation_fits(words: &[u64; RECORD_WORDS]) -> bool
    ensures { result ≡ operation_fits words.now }
{
    words[layout::OPERATION_AT] < 8 && erase_fits(words) && program_fits(words)
}

// Only a block erase past its window recovers.
#[tactic(auto, unfolding(layout::specs::Image::recovery_fits))]
pub fn recovery_fits(words: &[u64; RECORD_WORDS]) -> bool
    ensures { result ≡ recovery_fits words.now }
{
    words[layout::OPERATION_AT] == 4 || words[layout::RECOVERY_AT] == 0
}

// The one-time block is entered with nothing or a program, and nothing else.
#[tactic(auto, unfolding(layout::specs::Image::entered_fits), using(std::proofs::lemmas::Bool::Decides::nat_tests))]
pub fn entered_fits(words: &[u64; RECORD_WORDS]) -> bool
    ensures { result ≡ entered_fits words.now }
{
    // Most are not in the block.
    words[layout::ENTERED_AT] == 0
        || words[layout::ENTERED_AT] < 2 && words[layout::OPERATION_AT] < 2
}

#[tactic(auto, unfolding(layout::specs::Image::erase_fits))]
fn erase_fits(words: &[u64; RECORD_WORDS]) -> bool
    ensures { result ≡ erase_fits words.now }
{
    if 3 <= words[layout::OPERATION_AT] {
        words[layout::TOGGLES_AT] < 4
    } else {
        sections::are_unused(words, layout::LIST_AT, layout::ADDRESS_AT)
    }
}

#[tactic(auto, unfolding(layout::specs::Image::program_fits))]
fn program_fits(words: &[u64; RECORD_WORDS]) -> bool
    ensures { result ≡ program_fits words.now }
{
    if programs(words[layout::OPERATION_AT]) {
        words[layout::DATA_AT] < 65536 && words[layout::TOGGLE_AT] < 2
    } else {
        sections::are_unused(words, layout::ADDRESS_AT, layout::DYB_AT)
    }
}

// Does the operation of this number have a program?
fn programs(number: u64) -> bool
    ensures { result ≡ programs number }
{
    matches!(number, 1 | 2 | 6)
}
