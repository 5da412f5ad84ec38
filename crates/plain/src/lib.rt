// The record of a device and its answers: the types that the plain machine of specs/ is written over.
#![tactic(auto)]

ghost use Rattle.std.specs.Prelude.{◌≡◌};
ghost use Rattle.plain.specs.Lent.{lent, array_of};

pub mod figures;

use blocks::Blocks;
use meter::Meter;
use protection::Protection;

// How an event is answered (document 01, "Refusals by number"). Refusals::number has the paper's numbers. DONE is one of them, and no Ok: the
// statements (`NoneAnswers12`, `cut-taken` ..) compare answers by name and number, DONE too.
#[derive(Clone, Copy, PartialEq, Eq)]
pub enum Refusal {
    Done,
    State,
    Cells,
    Address,
    Clock,
    Debris,
    Busy,
    Sequence,
    Bank,
    Protected,
    Suspended,
    Locked,
    OtpLocked,
    Raise,
}

// The two arrays that are lent: the cells, and the one-time words.
#[derive(Clone, Copy, PartialEq, Eq)]
pub enum Array {
    Main,
    OneTime,
}

impl Array {
    // The words that it names, of the two arrays that are lent.
    pub fn among<'a>(self, cells: &'a [u16], otp: &'a [u16]) -> &'a [u16]
        ensures { result.now ≡ array_of self (lent cells.now otp.now) }
    {
        match self {
            Array::Main => cells,
            Array::OneTime => otp,
        }
    }
}

// What a program writes: "address and all 16 data bits", in one of the arrays. Who asks of it goes by Programs, and takes it apart
// nowhere else.
#[derive(Clone, Copy)]
pub struct Written {
    pub at: usize,
    pub word: u16,
    pub array: Array,
}

// A program: what it writes, the microseconds left, and its toggle.
#[derive(Clone, Copy)]
pub struct Program {
    pub writes: Written,
    pub left: u64,
    pub dq6: bool,
}

// An erase: the listed blocks, the block in hand, the microseconds left of it, and the toggles.
#[derive(Clone, Copy)]
pub struct Erase {
    pub list: Blocks,
    pub hand: usize,
    pub left: u64,
    pub dq6: bool,
    pub dq2: bool,
}

// What goes on inside a suspended erase. No Option: docs/DECISIONS.md, "Forms by place", names a program state enum here.
#[derive(Clone, Copy)]
pub enum Inside {
    Nothing,
    Runs(Program),
}

#[derive(Clone, Copy)]
pub struct SuspendedErase {
    pub erase: Erase,
    pub inside: Inside,
}

// A block erase that B0H has stopped past its window: it is suspended when the microseconds left of its recovery are over.
#[derive(Clone, Copy)]
pub struct Recovery {
    pub erase: Erase,
    pub left: u64,
}

// What runs, is suspended or is entered. A block erase that runs is in one of three phases: in its window (there `left` is the window's time,
// and the block in hand has its full time yet), erasing, or recovering. A suspended program is held by stored records alone.
// While the one-time block is entered a program may run, but no erase, and nothing is suspended: there is no place for them.
#[derive(Clone, Copy)]
pub enum Operation {
    Idle,
    Programming(Program),
    ProgramSuspended(Program),
    Window(Erase),
    Erasing(Erase),
    Recovering(Recovery),
    EraseSuspended(SuspendedErase),
    ChipErasing(Erase),
    InOneTime,
    OneTimeProgramming(Program),
}

// What of an operation runs, a program inside a suspended erase or the one-time block included: asked by all who go by what runs now.
#[derive(Clone, Copy)]
pub enum Running {
    Still,
    Programs(Program),
    Waits(Erase),
    Erases(Erase),
    Recovers(Recovery),
    ErasesChip(Erase),
}

// What commands are entered beside: nothing, what is suspended, or the one-time block. Asked by all who go by what stands while
// nothing runs.
#[derive(Clone, Copy)]
pub enum Suspension {
    Unsuspended,
    OfProgram(Program),
    OfErase(Erase),
    Entered,
}

// The command register.
#[derive(Clone, Copy)]
pub enum Command {
    Ground,
    Entering(Cycle),
    Reads(Reading),
}

// A command that is half entered: the cycle that was taken last.
#[derive(Clone, Copy)]
pub enum Cycle {
    Unlock,
    Unlocked,
    ProgramData,
    EraseSetup,
    EraseUnlock,
    EraseUnlocked,
    DybData,
    PpbSetup,
    PpbSetting(usize),
    PpbClearing,
    OtpLocking,
}

// A reading that is on: identity in a bank, 58H, or the status of the customer's lock.
#[derive(Clone, Copy)]
pub enum Reading {
    Identity(usize),
    Dybs,
    OtpLock,
}

// The whole record.
#[derive(Clone, Copy)]
pub struct Device {
    pub meter: Meter,
    pub command: Command,
    pub operation: Operation,
    pub bits: Protection,
}

// The answer to an event: the refusal, the word that a read gives, and the record afterwards.
#[derive(Clone, Copy)]
pub struct Answer {
    pub refusal: Refusal,
    pub word: u16,
    pub device: Device,
}

// What a write does.
#[derive(Clone, Copy)]
pub enum Effect {
    // It is taken, and the register goes on.
    Goes(Command),
    // It is taken, an operation starts, stops or goes on, and the register is at ground.
    Starts(Operation),
    // It is taken, protection bits change, and the register is at ground.
    Protects(Protection),
    // It is refused, and the register is at ground; a suspension stands.
    Falls(Refusal),
    // It is refused, and nothing changes.
    Stays(Refusal),
    // It is no write of the erase window: SEQUENCE, and the list is dropped.
    Drops,
}

// What a read sees: the word, and the operation with its toggles afterwards.
#[derive(Clone, Copy)]
pub struct Seen {
    pub word: u16,
    pub operation: Operation,
}

// A word of one of the arrays.
#[derive(Clone, Copy)]
pub struct Spot {
    pub array: Array,
    pub at: usize,
}
