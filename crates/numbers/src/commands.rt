// The command register and its two words: its number, and the block or bank beside it.
ghost use Rattle.std.specs.Prelude.{◌≡◌};
ghost use Rattle.layout.specs.Commands.{beside, cycle_words, reading_words, command_words, cycle_of, command_of};

use layout::CommandWords;
use plain::{Command, Cycle, Reading};

#[tactic(auto, unfolding(layout::specs::Commands::command_words))]
pub fn words_of(command: Command) -> CommandWords
    ensures { result ≡ command_words command }
{
    match command {
        Command::Ground => beside(0, 0),
        Command::Entering(cycle) => cycle_words(cycle),
        Command::Reads(reading) => reading_words(reading),
    }
}

#[tactic(auto, unfolding(layout::specs::Commands::cycle_words))]
fn cycle_words(cycle: Cycle) -> CommandWords
    ensures { result ≡ cycle_words cycle }
{
    match cycle {
        Cycle::Unlock => beside(1, 0),
        Cycle::Unlocked => beside(2, 0),
        Cycle::ProgramData => beside(3, 0),
        Cycle::EraseSetup => beside(4, 0),
        Cycle::EraseUnlock => beside(5, 0),
        Cycle::EraseUnlocked => beside(6, 0),
        Cycle::DybData => beside(7, 0),
        Cycle::PpbSetup => beside(8, 0),
        Cycle::PpbSetting(block) => beside(9, block),
        Cycle::PpbClearing => beside(10, 0),
        Cycle::OtpLocking => beside(13, 0),
    }
}

#[tactic(auto, unfolding(layout::specs::Commands::reading_words))]
fn reading_words(reading: Reading) -> CommandWords
    ensures { result ≡ reading_words reading }
{
    match reading {
        Reading::Identity(bank) => beside(11, bank),
        Reading::Dybs => beside(12, 0),
        Reading::OtpLock => beside(14, 0),
    }
}

fn beside(number: u64, place: usize) -> CommandWords
    ensures { result ≡ beside number place }
{
    CommandWords {
        number,
        place: place as u64,
    }
}

#[tactic(auto, unfolding(layout::specs::Commands::command_of))]
pub fn command_of(number: u64, place: u64) -> Command
    ensures { result ≡ command_of (beside number place) }
{
    match number {
        0 => Command::Ground,
        11 => Command::Reads(Reading::Identity(place as usize)),
        12 => Command::Reads(Reading::Dybs),
        14 => Command::Reads(Reading::OtpLock),
        _ => {
            let cycle = cycle_of(number, place);
            Command::Entering(cycle)
        }
    }
}

// Of a number past 14, which no record has, it tells the last.
#[tactic(auto, unfolding(layout::specs::Commands::cycle_of))]
fn cycle_of(number: u64, place: u64) -> Cycle
    ensures { result ≡ cycle_of (beside number place) }
{
    match number {
        1 => Cycle::Unlock,
        2 => Cycle::Unlocked,
        3 => Cycle::ProgramData,
        4 => Cycle::EraseSetup,
        5 => Cycle::EraseUnlock,
        6 => Cycle::EraseUnlocked,
        7 => Cycle::DybData,
        8 => Cycle::PpbSetup,
        9 => Cycle::PpbSetting(place as usize),
        10 => Cycle::PpbClearing,
        _ => Cycle::OtpLocking,
    }
}
