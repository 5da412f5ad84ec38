// What begins with judging the record: the checks of every event, and what is asked without one.
#![tactic(auto)]

ghost use Rattle.std.specs.Prelude.{◌≡◌};
ghost use Rattle.plain.specs.Lent.{lent, is_whole};
ghost use Rattle.plain.specs.declared.Device.{Device};
ghost use Rattle.plain.specs.Sound.{sound};
ghost use Rattle.plain.specs.Machine.{entry};
ghost use Rattle.judged.specs.Asked.{exposed_now, reads_cells};

use cutting::Exposed;
use geometry::Part;
use plain::{Device, Refusal, figures};

pub mod foreseen;

// The checks that every event begins with: STATE, then CELLS. It is told whether the record is sound, and not handed the record,
// which the compiler would copy.
pub fn entry(part: Part, good: bool, cells: &[u16], otp: &[u16]) -> Result<(), Refusal>
    ensures { (d : Device) → good ≡ sound part d → result ≡ entry part d (lent cells.now otp.now) }
{
    if !good {
        return Err(Refusal::State);
    }
    if !is_whole(part, cells, otp) {
        return Err(Refusal::Cells);
    }
    Ok(())
}

// "the lent length is not the part's word count"; "CELLS for another OTP length"
fn is_whole(part: Part, cells: &[u16], otp: &[u16]) -> bool
    ensures { result ≡ is_whole part (lent cells.now otp.now) }
{
    cells.len() == part.words() && otp.len() == figures::OTP_WORDS
}

// Which block and which word of which array an accepted cut would change if it came now; none for a record that is not sound.
#[tactic(auto, unfolding(crate::specs::Asked::exposed_now))]
pub fn exposed(part: Part, device: Device) -> Exposed
    ensures { result ≡ exposed_now part device }
{
    if !soundness::is_sound(part, device) {
        return Exposed {
            block: None,
            word: None,
        };
    }
    cutting::exposed(part, device.operation)
}

// Do reads in a bank give the cells and change nothing? Then an emulator may map the cells while it holds.
#[tactic(auto, unfolding(crate::specs::Asked::reads_cells))]
pub fn reads_cells(part: Part, device: Device, bank: usize) -> bool
    ensures { result ≡ reads_cells part device bank }
{
    soundness::is_sound(part, device)
        && mapping::gives_cells(part, device.command, device.operation, bank)
}
