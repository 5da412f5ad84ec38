// A lapse of time or of power with all its checks: a wait is told by what it moves, a cut by whether it came. Who calls makes
// of it the record, or the words of one.
#![tactic(auto)]

ghost use Rattle.std.specs.Prelude.{◌≡◌};
ghost use Rattle.plain.specs.Lent.{lent};
ghost use Rattle.plain.specs.Machine.{Fit, wait_event, cut_event};
ghost use Rattle.elapsed.specs.Lapses.{lapsed, cut_by};

use geometry::Part;
use moments::Moved;
use plain::{Device, Refusal, figures};

pub fn wait(
    part: Part,
    device: Device,
    cells: &mut [u16],
    otp: &mut [u16],
    microseconds: u64,
) -> Result<Moved, Refusal>
    ensures result_value { lapsed device result ≡ (wait_event part device (lent cells.old otp.old) microseconds).answer }
    ensures cells_after { cells.new ≡ (wait_event part device (lent cells.old otp.old) microseconds).lent.cells }
    ensures otp_after { otp.new ≡ (wait_event part device (lent cells.old otp.old) microseconds).lent.otp }
{
    judged::entry(part, soundness::is_sound(part, device), cells, otp)?;
    admitted_wait(part, device, cells, otp, microseconds)
}

// Once the record is sound and what is lent is whole.
fn admitted_wait(
    part: Part,
    device: Device,
    cells: &mut [u16],
    otp: &mut [u16],
    microseconds: u64,
) -> Result<Moved, Refusal>
    requires { Fit part device (lent cells.old otp.old) }
    ensures result_value { lapsed device result ≡ (wait_event part device (lent cells.old otp.old) microseconds).answer }
    ensures cells_after { cells.new ≡ (wait_event part device (lent cells.old otp.old) microseconds).lent.cells }
    ensures otp_after { otp.new ≡ (wait_event part device (lent cells.old otp.old) microseconds).lent.otp }
{
    let meter = device.meter;
    // The clock is at most its limit, so the difference is there; the sum might not be.
    if figures::clock_limit(part) - meter.clock < microseconds {
        return Err(Refusal::Clock);
    }
    Ok(waiting::pass(part, meter, device.operation, cells, otp, microseconds))
}

pub fn cut(
    part: Part,
    device: Device,
    cells: &mut [u16],
    otp: &mut [u16],
    debris: &[u16],
) -> Result<(), Refusal>
    ensures result_value { cut_by device result ≡ (cut_event part device (lent cells.old otp.old) debris.now).answer }
    ensures cells_after { cells.new ≡ (cut_event part device (lent cells.old otp.old) debris.now).lent.cells }
    ensures otp_after { otp.new ≡ (cut_event part device (lent cells.old otp.old) debris.now).lent.otp }
{
    judged::entry(part, soundness::is_sound(part, device), cells, otp)?;
    admitted_cut(part, device, cells, otp, debris)
}

fn admitted_cut(
    part: Part,
    device: Device,
    cells: &mut [u16],
    otp: &mut [u16],
    debris: &[u16],
) -> Result<(), Refusal>
    requires { Fit part device (lent cells.old otp.old) }
    ensures result_value { cut_by device result ≡ (cut_event part device (lent cells.old otp.old) debris.now).answer }
    ensures cells_after { cells.new ≡ (cut_event part device (lent cells.old otp.old) debris.now).lent.cells }
    ensures otp_after { otp.new ≡ (cut_event part device (lent cells.old otp.old) debris.now).lent.otp }
{
    let operation = device.operation;
    if debris.len() < cutting::debris_needed(part, operation) {
        return Err(Refusal::Debris);
    }
    cutting::cut_lent(part, operation, cells, otp, debris);
    Ok(())
}
