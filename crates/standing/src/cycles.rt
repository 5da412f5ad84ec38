// Which cycles of a command may be the last one taken, and which readings may be on.
ghost use Rattle.std.specs.Prelude.{◌≡◌};
ghost use Rattle.plain.specs.Sound.{cycle_unsuspended, reading_sound, cycle_in_suspension};

use geometry::Part;
use plain::{Cycle, Reading, Suspension};

// "block numbers are in range": of 68H's block. Past 80H none is half entered in the one-time block, at the lock's address only there.
#[tactic(auto, unfolding(plain::specs::Sound::cycle_unsuspended))]
pub fn cycle_unsuspended(part: Part, entered: bool, cycle: Cycle) -> bool
    ensures { result ≡ cycle_unsuspended part entered cycle }
{
    match cycle {
        Cycle::Unlock
        | Cycle::Unlocked
        | Cycle::ProgramData
        | Cycle::DybData
        | Cycle::PpbSetup
        | Cycle::PpbClearing => true,
        Cycle::EraseSetup | Cycle::EraseUnlock | Cycle::EraseUnlocked => !entered,
        Cycle::PpbSetting(block) => block < part.blocks(),
        Cycle::OtpLocking => entered,
    }
}

// So is the bank of identity reading. The status of the customer's lock is read in the one-time block alone.
#[tactic(auto, unfolding(plain::specs::Sound::reading_sound))]
pub fn reading_sound(part: Part, suspension: Suspension, reading: Reading) -> bool
    ensures { result ≡ reading_sound part suspension reading }
{
    match reading {
        Reading::Identity(bank) => bank < part.banks(),
        Reading::Dybs => true,
        Reading::OtpLock => operations::is_entered(suspension),
    }
}

// "in suspension none is half entered past 80H, 48H or 60H, nor past A0H in a suspended program"
#[tactic(auto, unfolding(plain::specs::Sound::cycle_in_suspension))]
pub fn cycle_in_suspension(programs: bool, cycle: Cycle) -> bool
    ensures { result ≡ cycle_in_suspension programs cycle }
{
    match cycle {
        Cycle::Unlock | Cycle::Unlocked => true,
        Cycle::ProgramData => programs,
        Cycle::EraseSetup
        | Cycle::EraseUnlock
        | Cycle::EraseUnlocked
        | Cycle::DybData
        | Cycle::PpbSetup
        | Cycle::PpbSetting(_)
        | Cycle::PpbClearing
        | Cycle::OtpLocking => false,
    }
}
