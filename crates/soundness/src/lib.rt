// Which records are sound (document 01, "A record is sound when .."), and the record of a fresh device.
#![tactic(auto)]

ghost use Rattle.std.specs.Prelude.{◌≡◌};
ghost use Rattle.plain.specs.Record.{fresh, device};
ghost use Rattle.plain.specs.declared.Command.TheVariants.{Ground};
ghost use Rattle.plain.specs.declared.Operation.TheVariants.{Idle};
ghost use Rattle.plain.specs.Sound.{meter_sound, sound};

use geometry::Part;
use meter::Meter;
use plain::{Command, Device, Operation, figures};
use protection::Protection;

// "A fresh device has clock 0, charge 0, no operation, no protection, any cells."
pub fn fresh() -> Device
    ensures { result ≡ fresh }
{
    Device {
        meter: Meter {
            clock: 0,
            charge: 0,
        },
        command: Command::Ground,
        operation: Operation::Idle,
        bits: Protection::fresh(),
    }
}

// Judged at every event, so without a loop over the blocks.
#[tactic(auto, unfolding(plain::specs::Sound::sound, plain::specs::Sound::operation_sound))]
pub fn is_sound(part: Part, device: Device) -> bool
    ensures { result ≡ sound part device }
{
    meter_sound(part, device.meter)
        && !device.bits.has_stray(part)
        && (operations::is_idle(device.operation)
            || underway::operation_sound(part, device.bits, device.operation))
        && standing::command_sound(part, device.operation, device.command)
}

// The same of an idle device at ground, by all there is to it: an idle event takes a fifth of the instructions of others by such ways.
#[tactic(auto, unfolding(plain::specs::Sound::sound))]
pub fn is_sound_idle(part: Part, meter: Meter, bits: Protection) -> bool
    ensures { result ≡ sound part (device meter Ground Idle bits) }
{
    meter_sound(part, meter) && !bits.has_stray(part)
}

// "the clock is at most the limit; charge is at most" the running current for all of it: in this order, so that the product fits.
#[tactic(auto, unfolding(plain::specs::Sound::meter_sound))]
fn meter_sound(part: Part, meter: Meter) -> bool
    ensures { result ≡ meter_sound part meter }
{
    meter.clock <= figures::clock_limit(part)
        && meter.charge <= figures::running_current(part) * meter.clock
}
