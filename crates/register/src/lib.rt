// The command register: what a write does (document 01, "Command cycles").
#![tactic(auto)]

ghost use Rattle.std.specs.Prelude.{◌≡◌};
ghost use Rattle.plain.specs.Commands.{written};
ghost use Rattle.plain.specs.Lent.{lent};

use decoder::entered;
use geometry::Part;
use operations::suspension_of;
use plain::{Device, Effect, Inside, Operation, Refusal, SuspendedErase};
use window::{in_erase, in_window};

// What a write does: what runs decides by itself; while nothing does, the decoder goes by what is suspended or entered.
#[tactic(auto, unfolding(plain::specs::Commands::written, plain::specs::Commands::in_suspended_erase, plain::specs::Operations::suspension_of))]
pub fn written(
    part: Part,
    device: Device,
    cells: &[u16],
    otp: &[u16],
    address: usize,
    word: u16,
) -> Effect
    ensures { result ≡ written part device.bits device.operation device.command (lent cells.now otp.now) address word }
{
    let bits = device.bits;
    match device.operation {
        Operation::Window(erase) => in_window(part, bits, erase, address, word),
        Operation::Erasing(erase) => in_erase(part, erase, word),
        Operation::EraseSuspended(
            SuspendedErase {
                inside: Inside::Runs(_),
                ..
            },
        )
        | Operation::Programming(_)
        | Operation::OneTimeProgramming(_)
        | Operation::ChipErasing(_)
        | Operation::Recovering(_) => Effect::Stays(Refusal::Busy),
        Operation::Idle
        | Operation::ProgramSuspended(_)
        | Operation::EraseSuspended(_)
        | Operation::InOneTime => {
            let suspension = suspension_of(device.operation);
            let command = device.command;
            entered(part, bits, suspension, command, cells, otp, address, word)
        }
    }
}
