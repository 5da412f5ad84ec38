// An operation by the two questions that most rules ask of it: what of it runs, and what stands while nothing does.
#![tactic(auto)]

ghost use Rattle.std.specs.Prelude.{◌≡◌, true};
ghost use Rattle.plain.specs.declared.Operation.TheVariants.{Idle};
ghost use Rattle.plain.specs.Sound.{is_still};
ghost use Rattle.plain.specs.Operations.{running_inside, running_of, suspension_of, is_entered, selected};

use plain::{Array, Inside, Operation, Running, Suspension, figures};

#[tactic(auto, unfolding(plain::specs::Operations::running_of))]
pub fn running_of(operation: Operation) -> Running
    ensures { result ≡ running_of operation }
{
    match operation {
        Operation::Idle | Operation::ProgramSuspended(_) | Operation::InOneTime => Running::Still,
        Operation::Programming(program) | Operation::OneTimeProgramming(program) => {
            Running::Programs(program)
        }
        Operation::Window(erase) => Running::Waits(erase),
        Operation::Erasing(erase) => Running::Erases(erase),
        Operation::Recovering(recovery) => Running::Recovers(recovery),
        Operation::EraseSuspended(suspended) => running_inside(suspended.inside),
        Operation::ChipErasing(erase) => Running::ErasesChip(erase),
    }
}

// "a second operation is only a program inside a suspended erase, and that program runs". On its own, as a pattern for a program in
// two places would copy it.
#[tactic(auto, unfolding(plain::specs::Operations::running_inside))]
fn running_inside(inside: Inside) -> Running
    ensures { result ≡ running_inside inside }
{
    match inside {
        Inside::Nothing => Running::Still,
        Inside::Runs(program) => Running::Programs(program),
    }
}

// Only where it is so is it told that nothing is under way, suspended or entered: a short way for most records.
pub fn is_idle(operation: Operation) -> bool
    ensures { result ≡ true → operation ≡ Idle }
{
    matches!(operation, Operation::Idle)
}

// What runs, as a yes or no, which most events ask first: it copies nothing.
#[tactic(auto, unfolding(plain::specs::Operations::running_of, plain::specs::Operations::running_inside, plain::specs::Sound::is_still))]
pub fn is_still(operation: Operation) -> bool
    ensures { result ≡ is_still (running_of operation) }
{
    match operation {
        Operation::Idle | Operation::ProgramSuspended(_) | Operation::InOneTime => true,
        Operation::EraseSuspended(suspended) => matches!(suspended.inside, Inside::Nothing),
        Operation::Programming(_)
        | Operation::Window(_)
        | Operation::Erasing(_)
        | Operation::Recovering(_)
        | Operation::ChipErasing(_)
        | Operation::OneTimeProgramming(_) => false,
    }
}

// "only a block erase or a program may be suspended"; or the one-time block is entered
#[tactic(auto, unfolding(plain::specs::Operations::suspension_of))]
pub fn suspension_of(operation: Operation) -> Suspension
    ensures { result ≡ suspension_of operation }
{
    match operation {
        Operation::ProgramSuspended(program) => Suspension::OfProgram(program),
        Operation::EraseSuspended(suspended) => Suspension::OfErase(suspended.erase),
        Operation::InOneTime | Operation::OneTimeProgramming(_) => Suspension::Entered,
        Operation::Idle
        | Operation::Programming(_)
        | Operation::Window(_)
        | Operation::Erasing(_)
        | Operation::Recovering(_)
        | Operation::ChipErasing(_) => Suspension::Unsuspended,
    }
}

pub fn is_entered(suspension: Suspension) -> bool
    ensures { result ≡ is_entered suspension }
{
    matches!(suspension, Suspension::Entered)
}

// "the one-time words or .. the main array, whichever its first address selects"
pub fn selected(suspension: Suspension, address: usize) -> Array
    ensures { result ≡ selected suspension address }
{
    if is_entered(suspension) && address < figures::OTP_WORDS {
        return Array::OneTime;
    }
    Array::Main
}
