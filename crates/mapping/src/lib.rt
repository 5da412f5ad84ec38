// Which banks an emulator may map as plain memory.
#![tactic(auto)]

ghost use Rattle.std.specs.Prelude.{◌≡◌};
ghost use Rattle.mapping.specs.Mapped.{given_in, reading_in, runs_in, rests_in, gives_cells};

use geometry::Part;
use plain::{Command, Operation, Reading, Recovery, Running, Suspension};

// Does a read at whatever address of the bank give the cell and change nothing?
#[tactic(auto, unfolding(crate::specs::Mapped::gives_cells))]
pub fn gives_cells(part: Part, command: Command, operation: Operation, bank: usize) -> bool
    ensures { result ≡ gives_cells part command operation bank }
{
    !reading_in(command, bank)
        && !runs_in(part, operations::running_of(operation), bank)
        && !rests_in(part, operations::suspension_of(operation), bank)
}

// Is an identity reading on in the bank, a 58H reading, or the status of the customer's lock?
#[tactic(auto, unfolding(crate::specs::Mapped::reading_in))]
fn reading_in(command: Command, bank: usize) -> bool
    ensures { result ≡ reading_in command bank }
{
    match command {
        Command::Ground | Command::Entering(_) => false,
        Command::Reads(reading) => given_in(reading, bank),
    }
}

// Of a whole bank: `reading` asks of an address, whose bank two of the three readings have no use for.
#[tactic(auto, unfolding(crate::specs::Mapped::given_in))]
fn given_in(reading: Reading, bank: usize) -> bool
    ensures { result ≡ given_in reading bank }
{
    match reading {
        Reading::Identity(of) => bank == of,
        Reading::Dybs | Reading::OtpLock => true,
    }
}

// Does anything run in the bank?
#[tactic(auto, unfolding(crate::specs::Mapped::runs_in))]
fn runs_in(part: Part, running: Running, bank: usize) -> bool
    ensures { result ≡ runs_in part running bank }
{
    match running {
        Running::Still => false,
        Running::Programs(program) => bank == programs::bank_written(part, program.writes),
        Running::Waits(erase)
        | Running::Erases(erase)
        | Running::Recovers(Recovery { erase, .. }) => bank == part.bank_of_block(erase.hand),
        Running::ErasesChip(_) => true,
    }
}

// Does a block of the bank wait for an operation to go on, or do one-time words stand in the place of some of its cells?
#[tactic(auto, unfolding(crate::specs::Mapped::rests_in))]
fn rests_in(part: Part, suspension: Suspension, bank: usize) -> bool
    ensures { result ≡ rests_in part suspension bank }
{
    match suspension {
        Suspension::Unsuspended => false,
        Suspension::OfProgram(program) => bank == programs::bank_written(part, program.writes),
        Suspension::OfErase(erase) => bank == part.bank_of_block(erase.hand),
        Suspension::Entered => bank == part.bank_of(0),
    }
}
