// The third write, which names the command (document 01, "Command cycles").
#![tactic(auto)]

ghost use Rattle.std.specs.Prelude.{◌≡◌};
ghost use Rattle.plain.specs.Commands.{after_unlocked};

use cycles::reset_or_sequence;
use geometry::Part;
use plain::{Command, Cycle, Effect, Operation, Reading, Suspension};
use protection::Protection;

mod suspensions;

use suspensions::{erase_setup, is_suspended, program_is_suspended, unless};

// Both unlock writes, then the third at 555H. "SUSPENDED comes at the third write for 80H, 48H, 78H, 60H, for A0H in a
// suspended program"; document 02, request 4: "Enter in suspension is SUSPENDED", by 88H.
#[tactic(auto, unfolding(plain::specs::Commands::after_unlocked))]
pub fn after_unlocked(
    part: Part,
    bits: Protection,
    suspension: Suspension,
    address: usize,
    word: u16,
) -> Effect
    ensures { result ≡ after_unlocked part bits suspension address word }
{
    if address % 2048 != 0x555 {
        return reset_or_sequence(suspension, word);
    }
    let suspended = is_suspended(suspension);
    let enter = Effect::Starts(Operation::InOneTime);
    match word % 256 {
        0xa0 => unless(
            program_is_suspended(suspension),
            Effect::Goes(Command::Entering(Cycle::ProgramData)),
        ),
        0x80 => unless(suspended, erase_setup(suspension)),
        0x88 => unless(suspended, enter),
        0x90 => Effect::Goes(Command::Reads(Reading::Identity(part.bank_of(address)))),
        0x58 => Effect::Goes(Command::Reads(Reading::Dybs)),
        0x48 => unless(suspended, Effect::Goes(Command::Entering(Cycle::DybData))),
        0x78 => unless(suspended, Effect::Protects(bits.with_lock())),
        0x60 => unless(suspended, Effect::Goes(Command::Entering(Cycle::PpbSetup))),
        _ => reset_or_sequence(suspension, word),
    }
}
