// Reads in the bank of what runs (document 01, "Status words"): which they are, and what they flip.
#![tactic(auto)]

ghost use Rattle.std.specs.Prelude.{◌≡◌};
ghost use Rattle.plain.specs.declared.Running.TheVariants.{Programs};
ghost use Rattle.plain.specs.Operations.{running_inside, running_of};
ghost use Rattle.plain.specs.Status.{polls, program_polled, erase_polled, inside_polled, polled};

use geometry::Part;
use plain::{Erase, Inside, Operation, Program, Recovery, SuspendedErase};

// "A read in the bank of a running operation (window included; any bank in a chip erase) gives a status word."
// It goes by the operation as it stands, and copies nothing of it.
#[tactic(auto, unfolding(plain::specs::Status::polls, plain::specs::Operations::running_of))]
pub fn polls(part: Part, operation: Operation, address: usize) -> bool
    ensures { result ≡ polls part (running_of operation) address }
{
    match operation {
        Operation::Idle | Operation::ProgramSuspended(_) | Operation::InOneTime => false,
        Operation::Programming(program) | Operation::OneTimeProgramming(program) => {
            program_polls(part, program, address)
        }
        Operation::Window(erase)
        | Operation::Erasing(erase)
        | Operation::Recovering(Recovery { erase, .. }) => {
            part.bank_of(address) == part.bank_of_block(erase.hand)
        }
        Operation::EraseSuspended(suspended) => inside_polls(part, suspended.inside, address),
        Operation::ChipErasing(_) => true,
    }
}

// On its own, as a pattern for a program in two places would copy it.
#[tactic(auto, unfolding(plain::specs::Status::polls, plain::specs::Operations::running_inside))]
fn inside_polls(part: Part, inside: Inside, address: usize) -> bool
    ensures { result ≡ polls part (running_inside inside) address }
{
    match inside {
        Inside::Nothing => false,
        Inside::Runs(program) => program_polls(part, program, address),
    }
}

#[tactic(auto, unfolding(plain::specs::Status::polls))]
fn program_polls(part: Part, program: Program, address: usize) -> bool
    ensures { result ≡ polls part (Programs program) address }
{
    part.bank_of(address) == programs::bank_written(part, program.writes)
}

// The operation with the toggles that such a read shows.
#[tactic(auto, unfolding(plain::specs::Status::polled))]
pub fn polled(part: Part, operation: Operation, address: usize) -> Operation
    ensures { result ≡ polled part operation address }
{
    match operation {
        Operation::Idle | Operation::ProgramSuspended(_) | Operation::InOneTime => operation,
        Operation::Programming(program) => Operation::Programming(program_polled(program)),
        Operation::Window(erase) => Operation::Window(erase_polled(part, erase, address)),
        Operation::Erasing(erase) => Operation::Erasing(erase_polled(part, erase, address)),
        Operation::Recovering(recovery) => Operation::Recovering(Recovery {
            erase: erase_polled(part, recovery.erase, address),
            ..recovery
        }),
        Operation::EraseSuspended(suspended) => Operation::EraseSuspended(SuspendedErase {
            inside: inside_polled(suspended.inside),
            ..suspended
        }),
        Operation::ChipErasing(erase) => Operation::ChipErasing(erase_polled(part, erase, address)),
        Operation::OneTimeProgramming(program) => {
            Operation::OneTimeProgramming(program_polled(program))
        }
    }
}

// On its own, too.
#[tactic(auto, unfolding(plain::specs::Status::inside_polled))]
fn inside_polled(inside: Inside) -> Inside
    ensures { result ≡ inside_polled inside }
{
    match inside {
        Inside::Nothing => Inside::Nothing,
        Inside::Runs(program) => Inside::Runs(program_polled(program)),
    }
}

// "Each such read flips DQ6 and shows the new value."
fn program_polled(program: Program) -> Program
    ensures { result ≡ program_polled program }
{
    Program {
        dq6: !program.dq6,
        ..program
    }
}

// "DQ2 flipped and shown if the address is in a listed block, finished or not, else shown unflipped"
fn erase_polled(part: Part, erase: Erase, address: usize) -> Erase
    ensures { result ≡ erase_polled part erase address }
{
    Erase {
        dq6: !erase.dq6,
        dq2: erase.dq2 != erase.list.has(part.block_of(address)),
        ..erase
    }
}
