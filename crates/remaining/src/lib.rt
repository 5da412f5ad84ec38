// How long what runs has still to go if nobody writes: until the device next changes by itself, and until nothing runs any more.
#![tactic(auto)]

ghost use Rattle.std.specs.Prelude.{◌≡◌, ◌+◌, ◌*◌, ◌^◌, ◌<◌};
ghost use Rattle.geometry.specs.Parts.{block_count};
ghost use Rattle.plain.specs.Operations.{running_of};
ghost use Rattle.remaining.specs.Remaining.{change_of, to_come, until_end, Fits};

use blocks::Blocks;
use geometry::Part;
use plain::{Array, Erase, Operation, Running, figures};

// What the device does next by itself: after how many microseconds, and at which word of which array or at which block.
#[derive(Clone, Copy)]
pub enum Change {
    Never,
    WindowEnds(u64),
    RecoveryEnds(u64),
    WordDone(WordFinish),
    BlockDone(Finish),
}

#[derive(Clone, Copy)]
pub struct WordFinish {
    pub after: u64,
    pub array: Array,
    pub at: usize,
}

#[derive(Clone, Copy)]
pub struct Finish {
    pub after: u64,
    pub at: usize,
}

#[tactic(auto, unfolding(crate::specs::Remaining::change_of))]
pub fn change_of(running: Running) -> Change
    ensures { result ≡ change_of running }
{
    match running {
        Running::Still => Change::Never,
        Running::Programs(program) => Change::WordDone(WordFinish {
            after: program.left,
            array: programs::array_written(program.writes),
            at: programs::first_word(program.writes),
        }),
        Running::Waits(erase) => Change::WindowEnds(erase.left),
        Running::Erases(erase) | Running::ErasesChip(erase) => Change::BlockDone(Finish {
            after: erase.left,
            at: erase.hand,
        }),
        Running::Recovers(recovery) => Change::RecoveryEnds(recovery.left),
    }
}

#[tactic(auto, unfolding(crate::specs::Remaining::until_end))]
pub fn until_end(part: Part, operation: Operation) -> u64
    requires { Fits part operation }
    ensures { result ≡ until_end part (running_of operation) }
{
    match operations::running_of(operation) {
        Running::Still => 0,
        Running::Programs(program) => program.left,
        Running::Waits(erase) => {
            let full = figures::erase_time(part);
            rest_of(part, erase, full) + full
        }
        Running::Erases(erase) => rest_of(part, erase, figures::erase_time(part)),
        Running::Recovers(recovery) => recovery.left,
        Running::ErasesChip(erase) => rest_of(part, erase, figures::chip_time(part)),
    }
}

// The block in hand, and those that come after it.
fn rest_of(part: Part, erase: Erase, full: u64) -> u64
    requires hand_bound { erase.hand < block_count part }
    requires left_bound { (erase.left < 4294967296) × (full < 4294967296) }
    ensures value { result ≡ erase.left + to_come part erase.list erase.hand * full }
    ensures full_bound { result + full < 2 ^ 64 }
{
    erase.left + to_come(part, erase.list, erase.hand) * full
}

// How many listed blocks lie above the one in hand. It goes from listed block to listed block, and not over every number as a range would:
// its cost is the list's, a turn for each block that is still to come.
fn to_come(part: Part, list: Blocks, hand: usize) -> u64
    requires { hand < block_count part }
    ensures { result ≡ to_come part list hand }
{
    let mut count = 0;
    let mut at = list.first_from(hand + 1);
    while at < part.blocks() {
        count += 1;
        at = list.first_from(at + 1);
    }
    count
}
