// A bus cycle with all its checks, told by what it does: a read by what it shows, a write by its effect. Who calls makes of it
// the record, or the words of one.
#![tactic(auto)]

ghost use Rattle.std.specs.Prelude.{◌≡◌};
ghost use Rattle.plain.specs.Commands.{effected};
ghost use Rattle.plain.specs.Lent.{lent};
ghost use Rattle.plain.specs.Machine.{Fit, read_event, write_event};
ghost use Rattle.access.specs.Sights.{sighted};

use geometry::Part;
use plain::{Device, Effect, Refusal, Seen};

pub fn read(
    part: Part,
    device: Device,
    cells: &[u16],
    otp: &[u16],
    address: usize,
) -> Result<Seen, Refusal>
    ensures { sighted device result ≡ (read_event part device (lent cells.now otp.now) address).answer }
{
    judged::entry(part, soundness::is_sound(part, device), cells, otp)?;
    admitted_read(part, device, cells, otp, address)
}

// Once the record is sound and what is lent is whole.
fn admitted_read(
    part: Part,
    device: Device,
    cells: &[u16],
    otp: &[u16],
    address: usize,
) -> Result<Seen, Refusal>
    requires { Fit part device (lent cells.now otp.now) }
    ensures { sighted device result ≡ (read_event part device (lent cells.now otp.now) address).answer }
{
    if part.words() <= address {
        return Err(Refusal::Address);
    }
    Ok(reading::look(part, device, cells, otp, address))
}

// A write alters no cell: their length is judged, and by A0H's data cycle the word that it would program.
pub fn write(
    part: Part,
    device: Device,
    cells: &[u16],
    otp: &[u16],
    address: usize,
    word: u16,
) -> Effect
    ensures { effected device result ≡ (write_event part device (lent cells.now otp.now) address word).answer }
{
    match judged::entry(part, soundness::is_sound(part, device), cells, otp) {
        Err(refusal) => Effect::Stays(refusal),
        Ok(()) => admitted_write(part, device, cells, otp, address, word),
    }
}

fn admitted_write(
    part: Part,
    device: Device,
    cells: &[u16],
    otp: &[u16],
    address: usize,
    word: u16,
) -> Effect
    requires { Fit part device (lent cells.now otp.now) }
    ensures { effected device result ≡ (write_event part device (lent cells.now otp.now) address word).answer }
{
    if part.words() <= address {
        return Effect::Stays(Refusal::Address);
    }
    register::written(part, device, cells, otp, address, word)
}
