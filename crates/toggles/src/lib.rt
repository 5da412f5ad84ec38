// The toggles of an operation as they are stored. They are told by the operation as it stands, and nothing of it is copied.
#![tactic(auto)]

ghost use Rattle.std.specs.Prelude.{◌≡◌};
ghost use Rattle.plain.specs.declared.Erase.{Erase};
ghost use Rattle.layout.specs.Operations.{suspended_parts, operation_parts};
ghost use Rattle.layout.specs.Image.{flag, toggles};

use plain::{Erase, Inside, Operation, Recovery, SuspendedErase};

// "DQ6 + 2 * DQ2"
pub fn word_of(erase: Erase) -> u64
    ensures { result ≡ toggles erase.dq6 erase.dq2 }
{
    erase.dq6 as u64 + 2 * (erase.dq2 as u64)
}

#[tactic(auto, unfolding(layout::specs::Operations::operation_parts, layout::specs::Operations::suspended_parts))]
pub fn of_erase(operation: Operation) -> u64
    ensures { result ≡ toggles (operation_parts operation).erase.dq6 (operation_parts operation).erase.dq2 }
{
    match operation {
        Operation::Window(erase)
        | Operation::Erasing(erase)
        | Operation::ChipErasing(erase)
        | Operation::Recovering(Recovery { erase, .. })
        | Operation::EraseSuspended(SuspendedErase { erase, .. }) => word_of(erase),
        Operation::Idle
        | Operation::Programming(_)
        | Operation::ProgramSuspended(_)
        | Operation::InOneTime
        | Operation::OneTimeProgramming(_) => 0,
    }
}

#[tactic(auto, unfolding(layout::specs::Operations::operation_parts))]
pub fn of_program(operation: Operation) -> u64
    ensures { result ≡ flag (operation_parts operation).program.dq6 }
{
    match operation {
        Operation::Programming(program)
        | Operation::ProgramSuspended(program)
        | Operation::OneTimeProgramming(program) => program.dq6 as u64,
        Operation::EraseSuspended(suspended) => of_inside(suspended.inside),
        Operation::Idle
        | Operation::Window(_)
        | Operation::Erasing(_)
        | Operation::Recovering(_)
        | Operation::ChipErasing(_)
        | Operation::InOneTime => 0,
    }
}

#[tactic(auto, unfolding(layout::specs::Operations::suspended_parts))]
fn of_inside(inside: Inside) -> u64
    ensures { (e : Erase) → result ≡ flag (suspended_parts e inside).program.dq6 }
{
    match inside {
        Inside::Nothing => 0,
        Inside::Runs(program) => program.dq6 as u64,
    }
}
