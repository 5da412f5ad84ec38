// A program begins.
ghost use Rattle.std.specs.Prelude.{◌≡◌};
ghost use Rattle.plain.specs.Commands.{keeps_out, started, begins};

use geometry::Part;
use plain::{Inside, Operation, Program, SuspendedErase, Suspension, Written, figures};
use programs::block_written;

// Is it "a program into a listed block"? A suspended program lets none begin.
#[tactic(auto, unfolding(plain::specs::Commands::keeps_out))]
pub fn keeps_out(part: Part, suspension: Suspension, written: Written) -> bool
    ensures { result ≡ keeps_out part suspension written }
{
    match suspension {
        Suspension::Unsuspended | Suspension::Entered => false,
        Suspension::OfProgram(_) => true,
        Suspension::OfErase(erase) => erase.list.has(block_written(part, written)),
    }
}

// "a program works inside a suspended erase"; so it does in the one-time block
#[tactic(auto, unfolding(plain::specs::Commands::begins))]
pub fn begins(suspension: Suspension, program: Program) -> Operation
    ensures { result ≡ begins suspension program }
{
    match suspension {
        Suspension::Unsuspended => Operation::Programming(program),
        Suspension::OfProgram(resting) => Operation::ProgramSuspended(resting),
        Suspension::OfErase(erase) => Operation::EraseSuspended(SuspendedErase {
            erase,
            inside: Inside::Runs(program),
        }),
        Suspension::Entered => Operation::OneTimeProgramming(program),
    }
}

// A program with all its time before it.
pub fn started(part: Part, written: Written) -> Program
    ensures { result ≡ started part written }
{
    Program {
        writes: written,
        left: figures::program_time(part),
        dq6: false,
    }
}
