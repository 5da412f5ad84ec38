// The device: one bus read, bus write, wait or power cut at a time, over cells and one-time words that the caller lends. Every
// record, address, word, wait and lent length is answered; the caller need have checked nothing. Cells and one-time words stay two
// arguments here and below: C lends them so, and the statements of audit/specs (`Performed`, `Called`) speak of these calls.
#![tactic(auto)]

ghost use Rattle.std.specs.Prelude.{◌≡◌};
ghost use Rattle.plain.specs.Lent.{lent};
ghost use Rattle.plain.specs.Record.{fresh, device};
ghost use Rattle.plain.specs.Sound.{sound};
ghost use Rattle.plain.specs.Machine.{read_event, write_event, wait_event, cut_event, range_array, range_event, range_words};
ghost use Rattle.judged.specs.Asked.{exposed_now, reads_cells};
ghost use Rattle.judged.specs.Foreseen.{end_now, change_now, debris_now};

use cutting::Exposed;
use geometry::Part;
use meter::Meter;
use plain::{Answer, Array, Device, Operation, Refusal};
use remaining::Change;

// "A fresh device has clock 0, charge 0, no operation, no protection, any cells."
pub fn fresh() -> Device
    ensures { result ≡ fresh }
{
    soundness::fresh()
}

pub fn is_sound(part: Part, device: Device) -> bool
    ensures { result ≡ sound part device }
{
    soundness::is_sound(part, device)
}

#[tactic(auto, unfolding(access::specs::Sights::sighted))]
pub fn read(part: Part, device: Device, cells: &[u16], otp: &[u16], address: usize) -> Answer
    ensures { result ≡ (read_event part device (lent cells.now otp.now) address).answer }
{
    match access::read(part, device, cells, otp, address) {
        Err(refusal) => answers::refused(refusal, device),
        Ok(seen) => answers::done(seen.word, moved(device, device.meter, seen.operation)),
    }
}

// A write alters no cell: their length is judged, and by A0H's data cycle the word that it would program.
pub fn write(
    part: Part,
    device: Device,
    cells: &[u16],
    otp: &[u16],
    address: usize,
    word: u16,
) -> Answer
    ensures { result ≡ (write_event part device (lent cells.now otp.now) address word).answer }
{
    let effect = access::write(part, device, cells, otp, address, word);
    afterwards::effected(device, effect)
}

#[tactic(auto, unfolding(elapsed::specs::Lapses::lapsed))]
pub fn wait(
    part: Part,
    device: Device,
    cells: &mut [u16],
    otp: &mut [u16],
    microseconds: u64,
) -> Answer
    ensures value { result ≡ (wait_event part device (lent cells.old otp.old) microseconds).answer }
    ensures cells_after { cells.new ≡ (wait_event part device (lent cells.old otp.old) microseconds).lent.cells }
    ensures otp_after { otp.new ≡ (wait_event part device (lent cells.old otp.old) microseconds).lent.otp }
{
    match elapsed::wait(part, device, cells, otp, microseconds) {
        Err(refusal) => answers::refused(refusal, device),
        Ok(after) => answers::done(0, moved(device, after.meter, after.operation)),
    }
}

#[tactic(auto, unfolding(elapsed::specs::Lapses::cut_by))]
pub fn cut(part: Part, device: Device, cells: &mut [u16], otp: &mut [u16], debris: &[u16]) -> Answer
    ensures value { result ≡ (cut_event part device (lent cells.old otp.old) debris.now).answer }
    ensures cells_after { cells.new ≡ (cut_event part device (lent cells.old otp.old) debris.now).lent.cells }
    ensures otp_after { otp.new ≡ (cut_event part device (lent cells.old otp.old) debris.now).lent.otp }
{
    match elapsed::cut(part, device, cells, otp, debris) {
        Err(refusal) => answers::refused(refusal, device),
        Ok(()) => answers::done(0, answers::cut_device(device.meter, device.bits)),
    }
}

// Document 02, request 4: the refusal of a range, the array that mode and first address select, and the words in place; none if it is
// refused. It changes nothing.
pub fn range_refusal(
    part: Part,
    device: Device,
    cells: &[u16],
    otp: &[u16],
    first: usize,
    count: usize,
) -> Refusal
    ensures { result ≡ (range_event part device (lent cells.now otp.now) first count).answer.refusal }
{
    ranging::refusal(part, device, cells, otp, first, count)
}

pub fn range_array(device: Device, first: usize) -> Array
    ensures { result ≡ range_array device.operation first }
{
    ranging::array(device.operation, first)
}

pub fn range<'a>(
    part: Part,
    device: Device,
    cells: &'a [u16],
    otp: &'a [u16],
    first: usize,
    count: usize,
) -> &'a [u16]
    ensures { result.now ≡ range_words part device (lent cells.now otp.now) first count }
{
    ranging::range(part, device, cells, otp, first, count)
}

// The record with another meter and another operation: what a read or a wait may change of it.
fn moved(from: Device, meter: Meter, operation: Operation) -> Device
    ensures { result ≡ device meter from.command operation from.bits }
{
    Device {
        meter,
        operation,
        ..from
    }
}

// Which block and which word of which array an accepted cut would change if it came now; none for a record that is not sound.
pub fn exposed(part: Part, device: Device) -> Exposed
    ensures { result ≡ exposed_now part device }
{
    judged::exposed(part, device)
}

// Do reads in a bank give the cells and change nothing? Then an emulator may map the cells while it holds.
pub fn reads_cells(part: Part, device: Device, bank: usize) -> bool
    ensures { result ≡ reads_cells part device bank }
{
    judged::reads_cells(part, device, bank)
}

// How many microseconds until nothing runs any more if nobody writes; unknown of a record that is not sound.
pub fn until_end(part: Part, device: Device) -> Option<u64>
    ensures { result ≡ end_now part device }
{
    judged::foreseen::until_end(part, device)
}

// What the device does next by itself: when, and at which word or block; nothing for a record that is not sound.
pub fn until_change(part: Part, device: Device) -> Change
    ensures { result ≡ change_now part device }
{
    judged::foreseen::until_change(part, device)
}

// How many words of debris a cut would need if it came now; unknown of a record that is not sound.
pub fn debris_needed(part: Part, device: Device) -> Option<u64>
    ensures { result ≡ debris_now part device }
{
    judged::foreseen::debris_needed(part, device)
}
