// The writes of 48H and 60H, which set and clear DYBs and PPBs (document 01, "Command cycles") and set the lock of the one-time
// block (document 02, request 4).
#![tactic(auto)]

ghost use Rattle.std.specs.Prelude.{◌≡◌};
ghost use Rattle.plain.specs.Commands.{or_reset, after48, lock_setup, after60, after68, after6060, after_lock_68, unless_locked};

use cycles::{at_lock, reset_or_sequence};
use geometry::Part;
use plain::{Command, Cycle, Effect, Reading, Refusal, Suspension};
use protection::Protection;

// 48H, then a data cycle: "low four data bits, 1 or 0, set or clear the DYB of its block; another value is SEQUENCE".
#[tactic(auto, unfolding(plain::specs::Commands::after48))]
pub fn after_48(part: Part, bits: Protection, address: usize, word: u16) -> Effect
    ensures { result ≡ after48 part bits address word }
{
    match word % 16 {
        1 => Effect::Protects(bits.with_dyb(part.block_of(address))),
        0 => Effect::Protects(bits.without_dyb(part.block_of(address))),
        _ => Effect::Falls(Refusal::Sequence),
    }
}

// 60H: "then 68H and 48H in the same block set its PPB, or 60H and 40H at any address clear all PPBs".
#[tactic(auto, unfolding(plain::specs::Commands::after60))]
pub fn after_60(part: Part, suspension: Suspension, address: usize, word: u16) -> Effect
    ensures { result ≡ after60 part suspension address word }
{
    if at_lock(suspension, address) {
        return lock_setup(suspension, word);
    }
    match word % 256 {
        0x68 => Effect::Goes(Command::Entering(Cycle::PpbSetting(part.block_of(address)))),
        0x60 => Effect::Goes(Command::Entering(Cycle::PpbClearing)),
        _ => reset_or_sequence(suspension, word),
    }
}

// 60H at the one-time block's lock: then 68H and 48H set it, and 48H alone has its status read.
fn lock_setup(suspension: Suspension, word: u16) -> Effect
    ensures { result ≡ or_reset suspension word (lock_setup word) }
{
    match word % 256 {
        0x68 => Effect::Goes(Command::Entering(Cycle::OtpLocking)),
        0x48 => Effect::Goes(Command::Reads(Reading::OtpLock)),
        _ => reset_or_sequence(suspension, word),
    }
}

// 60H and 68H, then 48H "in the same block".
#[tactic(auto, unfolding(plain::specs::Commands::after68))]
pub fn after_68(
    part: Part,
    bits: Protection,
    suspension: Suspension,
    block: usize,
    address: usize,
    word: u16,
) -> Effect
    ensures { result ≡ after68 part bits suspension block address word }
{
    if at_lock(suspension, address) || word % 256 != 0x48 {
        return reset_or_sequence(suspension, word);
    }
    if part.block_of(address) != block {
        return Effect::Falls(Refusal::Sequence);
    }
    unless_locked(bits, bits.with_ppb(block))
}

// 60H and 60H, then 40H "at any address" but the lock's.
#[tactic(auto, unfolding(plain::specs::Commands::after6060))]
pub fn after_6060(bits: Protection, suspension: Suspension, address: usize, word: u16) -> Effect
    ensures { result ≡ after6060 bits suspension address word }
{
    if at_lock(suspension, address) || word % 256 != 0x40 {
        return reset_or_sequence(suspension, word);
    }
    unless_locked(bits, bits.without_ppbs())
}

// 60H and 68H at the lock, then 48H there: the PPB lock bit has no part in it.
#[tactic(auto, unfolding(plain::specs::Commands::after_lock_68))]
pub fn after_lock_68(bits: Protection, suspension: Suspension, address: usize, word: u16) -> Effect
    ensures { result ≡ after_lock_68 bits suspension address word }
{
    if at_lock(suspension, address) && word % 256 == 0x48 {
        return Effect::Protects(bits.with_seal());
    }
    reset_or_sequence(suspension, word)
}

// "The effect comes with the second of the two, at once; LOCKED is judged there."
fn unless_locked(bits: Protection, changed: Protection) -> Effect
    ensures { result ≡ unless_locked bits changed }
{
    if bits.lock {
        return Effect::Falls(Refusal::Locked);
    }
    Effect::Protects(changed)
}
