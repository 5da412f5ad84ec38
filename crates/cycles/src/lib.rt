// The cycles that commands are made of: tests of an address and a word (document 01, "Command cycles").
#![tactic(auto)]

ghost use Rattle.std.specs.Prelude.{◌≡◌, ◌&&◌};
ghost use Rattle.plain.specs.Cycles.{is_at, is, first_unlock, second_unlock};
ghost use Rattle.plain.specs.Commands.{at_lock, resets, or_reset};
ghost use Rattle.plain.specs.declared.Effect.TheVariants.{Falls};
ghost use Rattle.plain.specs.declared.Refusal.TheVariants.{Sequence};

use operations::is_entered;
use plain::{Command, Effect, Operation, Refusal, Suspension};

// "Command addresses are compared on their low 11 bits, command data on their low 8."
pub fn is_cycle(address: usize, word: u16, at: usize, code: u16) -> bool
    ensures { result ≡ (is_at address at && is word code) }
{
    address % 2048 == at && word % 256 == code
}

pub fn is_first_unlock(address: usize, word: u16) -> bool
    ensures { result ≡ first_unlock address word }
{
    is_cycle(address, word, 0x555, 0xaa)
}

pub fn is_second_unlock(address: usize, word: u16) -> bool
    ensures { result ≡ second_unlock address word }
{
    is_cycle(address, word, 0x2aa, 0x55)
}

// After 60H: a write to the lock of the one-time block, while it is entered? Its address counts on its low 8 bits.
pub fn at_lock(suspension: Suspension, address: usize) -> bool
    ensures { result ≡ at_lock suspension address }
{
    is_entered(suspension) && address % 256 == 0x1a
}

// "F0H returns to ground"; document 02, request 4: "A cut or reset exits".
#[tactic(auto, unfolding(plain::specs::Commands::resets))]
pub fn resets(suspension: Suspension) -> Effect
    ensures { result ≡ resets suspension }
{
    match suspension {
        Suspension::Unsuspended | Suspension::OfProgram(_) | Suspension::OfErase(_) => {
            Effect::Goes(Command::Ground)
        }
        Suspension::Entered => Effect::Starts(Operation::Idle),
    }
}

// A write that continues no command: F0H, or else SEQUENCE.
pub fn reset_or_sequence(suspension: Suspension, word: u16) -> Effect
    ensures { result ≡ or_reset suspension word (Falls Sequence) }
{
    if word % 256 == 0xf0 {
        return resets(suspension);
    }
    Effect::Falls(Refusal::Sequence)
}
