// What runs, is suspended or is entered, and its number, its erase, its program, the time left of its recovery and whether the one-time
// block is entered.
ghost use Rattle.std.specs.Prelude.{◌≡◌, ◌<◌, ◌≤◌};
ghost use Rattle.plain.specs.declared.Program.{Program};
ghost use Rattle.plain.specs.declared.Erase.{Erase};
ghost use Rattle.plain.specs.declared.Operation.TheVariants.{Idle};
ghost use Rattle.layout.specs.Operations.{no_erase, no_program, parts, suspended_parts, entered_parts, operation_parts, operation_numbered, operation_outside, operation_inside};

use blocks::Blocks;
use layout::OperationParts;
use plain::{Array, Erase, Inside, Operation, Program, Recovery, SuspendedErase, Written};

#[tactic(auto, unfolding(layout::specs::Operations::operation_parts))]
pub fn parts_of(operation: Operation) -> OperationParts
    ensures { result ≡ operation_parts operation }
{
    match operation {
        Operation::Idle => idle_parts(),
        Operation::Programming(program) => parts(1, no_erase(), program),
        Operation::ProgramSuspended(program) => parts(2, no_erase(), program),
        Operation::Window(erase) => parts(3, erase, no_program()),
        Operation::Erasing(erase) => parts(4, erase, no_program()),
        Operation::Recovering(recovery) => OperationParts {
            recovery: recovery.left,
            ..parts(4, recovery.erase, no_program())
        },
        Operation::EraseSuspended(suspended) => suspended_parts(suspended.erase, suspended.inside),
        Operation::ChipErasing(erase) => parts(7, erase, no_program()),
        Operation::InOneTime => entered_parts(0, no_program()),
        Operation::OneTimeProgramming(program) => entered_parts(1, program),
    }
}

// Of a device where nothing runs, is suspended or is entered: a cut leaves it so.
#[tactic(auto, unfolding(layout::specs::Operations::operation_parts))]
pub fn idle_parts() -> OperationParts
    ensures { result ≡ operation_parts Idle }
{
    parts(0, no_erase(), no_program())
}

#[tactic(auto, unfolding(layout::specs::Operations::suspended_parts))]
fn suspended_parts(erase: Erase, inside: Inside) -> OperationParts
    ensures { result ≡ suspended_parts erase inside }
{
    match inside {
        Inside::Nothing => parts(5, erase, no_program()),
        Inside::Runs(program) => parts(6, erase, program),
    }
}

fn parts(number: u64, erase: Erase, program: Program) -> OperationParts
    ensures { result ≡ parts number erase program }
{
    OperationParts {
        number,
        erase,
        program,
        recovery: 0,
        entered: false,
    }
}

// In the one-time block: the numbers of nothing and of a program.
fn entered_parts(number: u64, program: Program) -> OperationParts
    ensures { result ≡ entered_parts number program }
{
    OperationParts {
        entered: true,
        ..parts(number, no_erase(), program)
    }
}

// "A word that is not in use is 0."
fn no_erase() -> Erase
    ensures { result ≡ no_erase }
{
    Erase {
        list: Blocks {
            w0: 0,
            w1: 0,
            w2: 0,
            w3: 0,
            w4: 0,
        },
        hand: 0,
        left: 0,
        dq6: false,
        dq2: false,
    }
}

fn no_program() -> Program
    ensures { result ≡ no_program }
{
    Program {
        writes: Written {
            at: 0,
            word: 0,
            array: Array::Main,
        },
        left: 0,
        dq6: false,
    }
}

// From a number on there is one function for each way that an operation lies in memory: one for several would take each apart by bytes.

// In the one-time block: a program or nothing.
#[tactic(auto, unfolding(layout::specs::Operations::operation_inside))]
pub fn operation_inside(number: u64, program: Program) -> Operation
    ensures { result ≡ operation_inside number program }
{
    if number == 1 {
        return Operation::OneTimeProgramming(program);
    }
    Operation::InOneTime
}

// Outside, a program by itself or nothing.
#[tactic(auto, unfolding(layout::specs::Operations::operation_numbered))]
pub fn program_alone(number: u64, program: Program) -> Operation
    requires { number < 3 }
    ensures { (e : Erase) → result ≡ operation_numbered number e program }
{
    match number {
        1 => Operation::Programming(program),
        2 => Operation::ProgramSuspended(program),
        _ => Operation::Idle,
    }
}

// Outside, an erase by itself: where time is left of a recovery, that. Of a number past 7, which no record has, nothing runs.
#[tactic(auto, unfolding(layout::specs::Operations::operation_numbered, layout::specs::Operations::operation_outside,))]
pub fn erase_alone(number: u64, erase: Erase, recovery: u64) -> Operation
    requires { recovery ≡ 0 → (3 ≤ number) × (number ≡ 6 → ⊥) }
    ensures { (q : Program) → result ≡ operation_outside number erase q recovery }
{
    if recovery != 0 {
        return Operation::Recovering(Recovery {
            erase,
            left: recovery,
        });
    }
    match number {
        3 => Operation::Window(erase),
        4 => Operation::Erasing(erase),
        5 => Operation::EraseSuspended(SuspendedErase {
            erase,
            inside: Inside::Nothing,
        }),
        7 => Operation::ChipErasing(erase),
        _ => Operation::Idle,
    }
}

// Outside, a program inside a suspended erase.
#[tactic(auto, unfolding(layout::specs::Operations::operation_numbered))]
pub fn program_and_erase(erase: Erase, program: Program) -> Operation
    ensures { result ≡ operation_numbered 6 erase program }
{
    Operation::EraseSuspended(SuspendedErase {
        erase,
        inside: Inside::Runs(program),
    })
}
