// May the command register stand as it does beside what runs, is suspended or is entered?
#![tactic(auto)]

ghost use Rattle.std.specs.Prelude.{◌≡◌};
ghost use Rattle.plain.specs.Sound.{cycle_sound, still_command, is_ground, command_sound};

mod cycles;

use geometry::Part;
use plain::{Command, Cycle, Operation, Suspension};

#[tactic(auto, unfolding(plain::specs::Sound::command_sound))]
pub fn command_sound(part: Part, operation: Operation, command: Command) -> bool
    ensures { result ≡ command_sound part operation command }
{
    if operations::is_still(operation) {
        return still_command(part, operations::suspension_of(operation), command);
    }
    is_ground(command)
}

// "no command is half entered and no identity or 58H reading is on while an operation runs"
#[tactic(auto, unfolding(plain::specs::Sound::is_ground))]
fn is_ground(command: Command) -> bool
    ensures { result ≡ is_ground command }
{
    matches!(command, Command::Ground)
}

// While nothing runs.
#[tactic(auto, unfolding(plain::specs::Sound::still_command))]
fn still_command(part: Part, suspension: Suspension, command: Command) -> bool
    ensures { result ≡ still_command part suspension command }
{
    match command {
        Command::Ground => true,
        Command::Entering(cycle) => cycle_sound(part, suspension, cycle),
        Command::Reads(reading) => cycles::reading_sound(part, suspension, reading),
    }
}

#[tactic(auto, unfolding(plain::specs::Sound::cycle_sound))]
fn cycle_sound(part: Part, suspension: Suspension, cycle: Cycle) -> bool
    ensures { result ≡ cycle_sound part suspension cycle }
{
    match suspension {
        Suspension::Unsuspended => cycles::cycle_unsuspended(part, false, cycle),
        Suspension::OfProgram(_) => cycles::cycle_in_suspension(false, cycle),
        Suspension::OfErase(_) => cycles::cycle_in_suspension(true, cycle),
        Suspension::Entered => cycles::cycle_unsuspended(part, true, cycle),
    }
}
