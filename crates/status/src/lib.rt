// The status words of what runs (document 01, "Status words").
#![tactic(auto)]

ghost use Rattle.std.specs.Prelude.{◌≡◌};
ghost use Rattle.plain.specs.declared.Running.TheVariants.{Programs};
ghost use Rattle.plain.specs.Operations.{running_inside, running_of};
ghost use Rattle.plain.specs.Status.{status};

use plain::{Inside, Operation, Program, Recovery};

mod word;

pub use word::{shown, status_word};

// "Program: DQ7 is the complement of data bit 7, DQ2 shows 1, DQ3 0. Erase: DQ7 0, DQ3 1 except 0 in the window"
#[tactic(auto, unfolding(plain::specs::Status::status, plain::specs::Operations::running_of))]
pub fn status_of(operation: Operation) -> u16
    ensures { result ≡ status (running_of operation) }
{
    match operation {
        Operation::Idle | Operation::ProgramSuspended(_) | Operation::InOneTime => 0,
        Operation::Programming(program) | Operation::OneTimeProgramming(program) => {
            program_status(program)
        }
        Operation::Window(erase) => status_word(false, erase.dq6, false, erase.dq2),
        Operation::Erasing(erase)
        | Operation::ChipErasing(erase)
        | Operation::Recovering(Recovery { erase, .. }) => {
            status_word(false, erase.dq6, true, erase.dq2)
        }
        Operation::EraseSuspended(suspended) => inside_status(suspended.inside),
    }
}

// On its own, as a pattern for a program in two places would copy it.
#[tactic(auto, unfolding(plain::specs::Status::status, plain::specs::Operations::running_inside))]
fn inside_status(inside: Inside) -> u16
    ensures { result ≡ status (running_inside inside) }
{
    match inside {
        Inside::Nothing => 0,
        Inside::Runs(program) => program_status(program),
    }
}

#[tactic(auto, unfolding(plain::specs::Status::status))]
fn program_status(program: Program) -> u16
    ensures { result ≡ status (Programs program) }
{
    status_word(programs::dq7(program.writes), program.dq6, false, true)
}
