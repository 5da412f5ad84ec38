// The record and the answer that the effect of a write leaves (document 01, "Refusals by number").
#![tactic(auto)]

ghost use Rattle.std.specs.Prelude.{◌≡◌};
ghost use Rattle.plain.specs.Commands.{effected};

use plain::{Answer, Command, Device, Effect, Operation, Refusal};

// The answer to a write and the record after it: the table's column "afterwards".
#[tactic(auto, unfolding(plain::specs::Commands::effected))]
pub fn effected(device: Device, effect: Effect) -> Answer
    ensures { result ≡ effected device effect }
{
    let ground = Device {
        command: Command::Ground,
        ..device
    };
    match effect {
        Effect::Goes(command) => answers::done(0, Device { command, ..device }),
        Effect::Starts(operation) => answers::done(
            0,
            Device {
                operation,
                ..ground
            },
        ),
        Effect::Protects(bits) => answers::done(0, Device { bits, ..ground }),
        Effect::Falls(refusal) => answers::refused(refusal, ground),
        Effect::Stays(refusal) => answers::refused(refusal, device),
        Effect::Drops => answers::refused(
            Refusal::Sequence,
            Device {
                operation: Operation::Idle,
                ..ground
            },
        ),
    }
}
