// The write after 90H, after 58H, or after the lock status of the one-time block.
ghost use Rattle.std.specs.Prelude.{◌≡◌};
ghost use Rattle.plain.specs.Commands.{exits, after_reading};

use cycles::resets;
use operations::is_entered;
use plain::{Effect, Operation, Reading, Refusal, Suspension};

// "After 90H or 58H only F0H is taken; any other write is SEQUENCE."; in the one-time block Exit is taken, too.
#[tactic(auto, unfolding(plain::specs::Commands::after_reading))]
pub fn after_reading(suspension: Suspension, reading: Reading, word: u16) -> Effect
    ensures { result ≡ after_reading suspension reading word }
{
    if word % 256 == 0xf0 {
        return resets(suspension);
    }
    if exits(suspension, reading, word) {
        return Effect::Starts(Operation::Idle);
    }
    Effect::Falls(Refusal::Sequence)
}

// Exit: 90H, then 00H at any address (Table 6 of source document 000).
#[tactic(auto, unfolding(plain::specs::Commands::exits))]
fn exits(suspension: Suspension, reading: Reading, word: u16) -> bool
    ensures { result ≡ exits suspension reading word }
{
    match reading {
        Reading::Identity(_) => is_entered(suspension) && word % 256 == 0x00,
        Reading::Dybs | Reading::OtpLock => false,
    }
}
