// The writes that start or resume an operation (document 01, "Command cycles").
#![tactic(auto)]

ghost use Rattle.std.specs.Prelude.{◌≡◌};
ghost use Rattle.plain.specs.Commands.{resumes, after_a0, after_80_unlocked};
ghost use Rattle.plain.specs.Lent.{lent};

use cycles::resets;
use geometry::Part;
use operations::selected;
use plain::{Effect, Operation, Refusal, Suspension};
use programs::{barred_as, is_barred, raises, writing};
use protection::Protection;

mod erases;
mod programming;

use erases::{block_erase, chip_erase};
use programming::{begins, keeps_out, started};

// "In suspension 30H at any address resumes from ground"
#[tactic(auto, unfolding(plain::specs::Commands::resumes))]
pub fn resumes(suspension: Suspension) -> Effect
    ensures { result ≡ resumes suspension }
{
    match suspension {
        Suspension::Unsuspended | Suspension::Entered => Effect::Falls(Refusal::Sequence),
        Suspension::OfProgram(program) => Effect::Starts(Operation::Programming(program)),
        Suspension::OfErase(erase) => Effect::Starts(Operation::Erasing(erase)),
    }
}

// A0H, then a data cycle, where F0H is data: "address and all 16 data bits of a program". "RAISE, after PROTECTED and SUSPENDED";
// "OTPLOCKED, in the place of PROTECTED".
#[tactic(auto, unfolding(plain::specs::Commands::after_a0))]
pub fn after_a0(
    part: Part,
    bits: Protection,
    suspension: Suspension,
    cells: &[u16],
    otp: &[u16],
    address: usize,
    word: u16,
) -> Effect
    ensures { result ≡ after_a0 part bits suspension (lent cells.now otp.now) address word }
{
    let written = writing(selected(suspension, address), address, word);
    if is_barred(part, bits, written) {
        return Effect::Falls(barred_as(written));
    }
    if keeps_out(part, suspension, written) {
        return Effect::Falls(Refusal::Suspended);
    }
    if raises(written, cells, otp) {
        return Effect::Falls(Refusal::Raise);
    }
    Effect::Starts(begins(suspension, started(part, written)))
}

// "10H at 555H (chip erase) or 30H at any address of a block (block erase)"
#[tactic(auto, unfolding(plain::specs::Commands::after_80_unlocked))]
pub fn after_80_unlocked(
    part: Part,
    bits: Protection,
    suspension: Suspension,
    address: usize,
    word: u16,
) -> Effect
    ensures { result ≡ after_80_unlocked part bits suspension address word }
{
    match word % 256 {
        0xf0 => resets(suspension),
        0x10 if address % 2048 == 0x555 => chip_erase(part, bits),
        0x30 => block_erase(part, bits, part.block_of(address)),
        _ => Effect::Falls(Refusal::Sequence),
    }
}
