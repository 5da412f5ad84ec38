// What a suspension shows: "a listed block reads C0H plus DQ2, which flips; the block of a suspended program reads its DQ7, with
// DQ6 and DQ2 both 1" (document 01).
ghost use Rattle.std.specs.Prelude.{◌≡◌};
ghost use Rattle.plain.specs.Status.{rests, rest_word, rest_flipped, rested};

use geometry::Part;
use plain::{Erase, Operation, SuspendedErase, Suspension};
use status::status_word;

// Does the block of the address wait for an operation to go on?
#[tactic(auto, unfolding(plain::specs::Status::rests))]
pub fn rests(part: Part, suspension: Suspension, address: usize) -> bool
    ensures { result ≡ rests part suspension address }
{
    match suspension {
        Suspension::Unsuspended | Suspension::Entered => false,
        Suspension::OfProgram(program) => {
            part.block_of(address) == programs::block_written(part, program.writes)
        }
        Suspension::OfErase(erase) => erase.list.has(part.block_of(address)),
    }
}

// The word of such a block.
#[tactic(auto, unfolding(plain::specs::Status::rest_word))]
pub fn rest_word(suspension: Suspension) -> u16
    ensures { result ≡ rest_word suspension }
{
    match suspension {
        Suspension::Unsuspended | Suspension::Entered => 0,
        Suspension::OfProgram(program) => {
            status_word(programs::dq7(program.writes), true, false, true)
        }
        Suspension::OfErase(erase) => status_word(true, true, false, erase.dq2),
    }
}

// The operation with the toggle that it shows.
#[tactic(auto, unfolding(plain::specs::Status::rested))]
pub fn rested(operation: Operation) -> Operation
    ensures { result ≡ rested operation }
{
    match operation {
        Operation::EraseSuspended(suspended) => Operation::EraseSuspended(rest_flipped(suspended)),
        _ => operation,
    }
}

// The suspended erase with its DQ2 flipped.
fn rest_flipped(suspended: SuspendedErase) -> SuspendedErase
    ensures { result ≡ rest_flipped suspended }
{
    SuspendedErase {
        erase: Erase {
            dq2: !suspended.erase.dq2,
            ..suspended.erase
        },
        ..suspended
    }
}
