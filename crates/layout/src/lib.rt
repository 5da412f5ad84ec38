// Where each part of a record stands among the words that a C program holds (include/k5l2931cam.h tells them one by one);
// and a command and an operation as what their words tell.
#![tactic(auto)]

use plain::{Erase, Program};

// A later layout has its new words at the end, and 0 there means "as before".
pub const LAYOUT: u64 = 3;

pub const RECORD_WORDS: usize = 32;
// Those before had its first words.
pub const FIRST_LAYOUT: u64 = 1;

pub const FIRST_WORDS: usize = 29;

pub const SECOND_LAYOUT: u64 = 2;

pub const SECOND_WORDS: usize = 30;

pub const LAYOUT_AT: usize = 0;

pub const CLOCK_AT: usize = 1;

pub const CHARGE_AT: usize = 2;

pub const COMMAND_AT: usize = 3;

pub const PLACE_AT: usize = 4;

pub const OPERATION_AT: usize = 5;
// An erase: five words of listed blocks, then the rest.
pub const LIST_AT: usize = 6;

pub const HAND_AT: usize = 11;

pub const ERASE_LEFT_AT: usize = 12;

pub const TOGGLES_AT: usize = 13;
// A program.
pub const ADDRESS_AT: usize = 14;

pub const DATA_AT: usize = 15;

pub const PROGRAM_LEFT_AT: usize = 16;

pub const TOGGLE_AT: usize = 17;
// Protection: five words for each set of bits.
pub const DYB_AT: usize = 18;

pub const PPB_AT: usize = 23;

pub const LOCK_AT: usize = 28;
// From layout 2 on: the time left of a recovery.
pub const RECOVERY_AT: usize = 29;
// From layout 3 on: whether the one-time block is entered, and its customer's lock.
pub const ENTERED_AT: usize = 30;

pub const SEALED_AT: usize = 31;

// The command register: its number, and the block or bank beside it.
#[derive(Clone, Copy)]
pub struct CommandWords {
    pub number: u64,
    pub place: u64,
}

// What runs or is suspended: its number, its erase, its program and the time left of its recovery, all 0 where it has none; and whether
// the one-time block is entered.
#[derive(Clone, Copy)]
pub struct OperationParts {
    pub number: u64,
    pub erase: Erase,
    pub program: Program,
    pub recovery: u64,
    pub entered: bool,
}
