// The small answers of the device: refusals and their numbers, DONE, and the record after a cut.
#![tactic(auto)]

ghost use Rattle.std.specs.Prelude.{◌≡◌};
ghost use Rattle.plain.specs.declared.Refusal.TheVariants.{Done};
ghost use Rattle.plain.specs.Record.{answer};
ghost use Rattle.plain.specs.Refusals.{number};
ghost use Rattle.answers.specs.Cut.{cut_of};

use meter::Meter;
use plain::{Answer, Command, Device, Operation, Refusal};
use protection::Protection;

// "A refused read, and every event that is no read, gives the word 0." One literal, as is `done`: a function for both would be it again.
pub fn refused(refusal: Refusal, device: Device) -> Answer
    ensures { result ≡ answer refusal 0 device }
{
    Answer {
        refusal,
        word: 0,
        device,
    }
}

pub fn done(word: u16, device: Device) -> Answer
    ensures { result ≡ answer Done word device }
{
    Answer {
        refusal: Refusal::Done,
        word,
        device,
    }
}

// "Then no operation, command or suspension remains, all DYBs and the PPB lock bit are 0, PPBs, clock and charge stand."
pub fn cut_device(meter: Meter, bits: Protection) -> Device
    ensures { result ≡ cut_of meter bits }
{
    Device {
        meter,
        command: Command::Ground,
        operation: Operation::Idle,
        bits: bits.after_cut(),
    }
}

// Document 01, "Refusals by number". A function and no `From`: both types are other crates', and docs/COVERAGE.md (F14) names it.
#[tactic(auto, unfolding(plain::specs::Refusals::number))]
pub fn number_of(refusal: Refusal) -> u64
    ensures { result ≡ number refusal }
{
    match refusal {
        Refusal::Done => 0,
        Refusal::State => 1,
        Refusal::Cells => 2,
        Refusal::Address => 3,
        Refusal::Clock => 4,
        Refusal::Debris => 5,
        Refusal::Busy => 6,
        Refusal::Sequence => 7,
        Refusal::Bank => 8,
        Refusal::Protected => 9,
        Refusal::Suspended => 10,
        Refusal::Locked => 11,
        Refusal::OtpLocked => 13,
        Refusal::Raise => 14,
    }
}
