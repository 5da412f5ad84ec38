// The decoder: the write of a command's next cycle while nothing runs (document 01, "Command cycles").
#![tactic(auto)]

ghost use Rattle.std.specs.Prelude.{◌≡◌};
ghost use Rattle.plain.specs.Commands.{entered, continued};
ghost use Rattle.plain.specs.Lent.{lent};

use geometry::Part;
use naming::after_unlocked;
use plain::{Command, Cycle, Effect, Suspension};
use protecting::{after_48, after_60, after_68, after_6060, after_lock_68};
use protection::Protection;
use starting::{after_80_unlocked, after_a0};

mod readings;
mod unlocks;

use readings::after_reading;
use unlocks::{at_ground, first_unlock, second_unlock};

// All that a command may go by is passed singly, as specs/Commands takes it: so each command's own function shows what it hangs on.
#[tactic(auto, unfolding(plain::specs::Commands::entered))]
pub fn entered(
    part: Part,
    bits: Protection,
    suspension: Suspension,
    command: Command,
    cells: &[u16],
    otp: &[u16],
    address: usize,
    word: u16,
) -> Effect
    ensures { result ≡ entered part bits suspension command (lent cells.now otp.now) address word }
{
    match command {
        Command::Ground => at_ground(suspension, address, word),
        Command::Entering(cycle) => continued(
            part, bits, suspension, cycle, cells, otp, address, word,
        ),
        Command::Reads(reading) => after_reading(suspension, reading, word),
    }
}

// The next write of a command that is half entered.
#[tactic(auto, unfolding(plain::specs::Commands::continued, plain::specs::Commands::after_unlock, plain::specs::Commands::after80, plain::specs::Commands::after_80_unlock))]
fn continued(
    part: Part,
    bits: Protection,
    suspension: Suspension,
    cycle: Cycle,
    cells: &[u16],
    otp: &[u16],
    address: usize,
    word: u16,
) -> Effect
    ensures { result ≡ continued part bits suspension cycle (lent cells.now otp.now) address word }
{
    match cycle {
        Cycle::Unlock => second_unlock(suspension, address, word, Cycle::Unlocked),
        Cycle::Unlocked => after_unlocked(part, bits, suspension, address, word),
        Cycle::ProgramData => after_a0(part, bits, suspension, cells, otp, address, word),
        Cycle::EraseSetup => first_unlock(suspension, address, word, Cycle::EraseUnlock),
        Cycle::EraseUnlock => second_unlock(suspension, address, word, Cycle::EraseUnlocked),
        Cycle::EraseUnlocked => after_80_unlocked(part, bits, suspension, address, word),
        Cycle::DybData => after_48(part, bits, address, word),
        Cycle::PpbSetup => after_60(part, suspension, address, word),
        Cycle::PpbSetting(block) => after_68(part, bits, suspension, block, address, word),
        Cycle::PpbClearing => after_6060(bits, suspension, address, word),
        Cycle::OtpLocking => after_lock_68(bits, suspension, address, word),
    }
}
