// What has begun: "An operation has begun when its time left is below its full time; a window has not begun" (document 01).
ghost use Rattle.std.specs.Prelude.{◌≡◌};
ghost use Rattle.plain.specs.Cut.{if_begun, begun_block, program_begun, begun_inside, begun_program, word_of};

use geometry::Part;
use plain::{Inside, Operation, Program, Recovery, Spot, SuspendedErase, Written, figures};

// The block and the word that a cut would change.
#[derive(Clone, Copy)]
pub struct Exposed {
    pub block: Option<usize>,
    pub word: Option<Spot>,
}

// The block whose erase has begun.
#[tactic(auto, unfolding(plain::specs::Cut::begun_block))]
pub fn begun_block(part: Part, operation: Operation) -> Option<usize>
    ensures { result ≡ begun_block part operation }
{
    match operation {
        Operation::Idle
        | Operation::Programming(_)
        | Operation::ProgramSuspended(_)
        | Operation::Window(_)
        | Operation::InOneTime
        | Operation::OneTimeProgramming(_) => None,
        Operation::Erasing(erase) => if_begun(erase.left, figures::erase_time(part), erase.hand),
        Operation::Recovering(Recovery { erase, .. })
        | Operation::EraseSuspended(SuspendedErase { erase, .. }) => {
            if_begun(erase.left, figures::erase_time(part), erase.hand)
        }
        Operation::ChipErasing(erase) => if_begun(erase.left, figures::chip_time(part), erase.hand),
    }
}

fn if_begun(left: u64, full: u64, block: usize) -> Option<usize>
    ensures { result ≡ if_begun left full block }
{
    if left < full {
        return Some(block);
    }
    None
}

// What the program writes that has begun.
#[tactic(auto, unfolding(plain::specs::Cut::begun_program))]
pub fn begun_program(part: Part, operation: Operation) -> Option<Written>
    ensures { result ≡ begun_program part operation }
{
    match operation {
        Operation::Programming(program)
        | Operation::ProgramSuspended(program)
        | Operation::OneTimeProgramming(program) => program_begun(part, program),
        Operation::EraseSuspended(suspended) => begun_inside(part, suspended.inside),
        Operation::Idle
        | Operation::Window(_)
        | Operation::Erasing(_)
        | Operation::Recovering(_)
        | Operation::ChipErasing(_)
        | Operation::InOneTime => None,
    }
}

#[tactic(auto, unfolding(plain::specs::Cut::begun_inside))]
fn begun_inside(part: Part, inside: Inside) -> Option<Written>
    ensures { result ≡ begun_inside part inside }
{
    match inside {
        Inside::Nothing => None,
        Inside::Runs(program) => program_begun(part, program),
    }
}

fn program_begun(part: Part, program: Program) -> Option<Written>
    ensures { result ≡ program_begun part program }
{
    if program.left < figures::program_time(part) {
        return Some(program.writes);
    }
    None
}

// The word that such a program is named by, and its array.
#[tactic(auto, unfolding(plain::specs::Cut::word_of))]
pub fn word_of(program: Option<Written>) -> Option<Spot>
    ensures { result ≡ word_of program }
{
    let written = program?;
    Some(Spot {
        array: programs::array_written(written),
        at: programs::first_word(written),
    })
}
