// What a read gives (document 01, "Status words", and the readings of "Command cycles").
#![tactic(auto)]

ghost use Rattle.std.specs.Prelude.{◌≡◌, ◌<◌, length};
ghost use Rattle.plain.specs.Lent.{lent, otp_words};
ghost use Rattle.plain.specs.Status.{look};

use geometry::Part;
use plain::{Array, Device, Seen};

mod readings;
mod resting;

// The word that a read sees, and the operation with its toggles afterwards: first the status of what runs in the bank, "after
// that come identity and 58H reading; then suspension", and "any other read gives the cell", or
// the one-time word.
#[tactic(auto, unfolding(plain::specs::Status::look))]
pub fn look(part: Part, device: Device, cells: &[u16], otp: &[u16], address: usize) -> Seen
    requires { (address < length cells.now) × (length otp.now ≡ otp_words) }
    ensures { result ≡ look part device.bits device.command device.operation (lent cells.now otp.now) address }
{
    let operation = device.operation;
    if polling::polls(part, operation, address) {
        let after = polling::polled(part, operation, address);
        return Seen {
            word: status::status_of(after),
            operation: after,
        };
    }
    if readings::reading_on(part, device.command, address) {
        return Seen {
            word: readings::reading_word(part, device.bits, device.command, address),
            operation,
        };
    }
    if resting::rests(part, operations::suspension_of(operation), address) {
        let after = resting::rested(operation);
        return Seen {
            word: resting::rest_word(operations::suspension_of(after)),
            operation: after,
        };
    }
    let word = match operations::selected(operations::suspension_of(operation), address) {
        Array::Main => cells[address],
        Array::OneTime => otp[address],
    };
    Seen { word, operation }
}
