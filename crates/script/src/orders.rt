// What a line asks for that ends.
ghost use Rattle.std.specs.Prelude.{◌≡◌};
ghost use Rattle.script.specs.Orders.{order_of, set_of, size_of};

use forms::{Form, Target};
use language::Order;

#[tactic(auto, unfolding(crate::specs::Orders::order_of, crate::specs::Orders::cut_of))]
pub fn order_of(form: Form, room: usize) -> Order
    ensures { result ≡ order_of form room }
{
    match form {
        Form::Empty | Form::Remark => Order::Nothing,
        Form::Reads(address) => Order::Read(address as usize),
        Form::Writes(address, word) => Order::Write(address as usize, word),
        Form::Waits(microseconds) => Order::Wait(microseconds),
        // Debris that there was no room for is extra: a whole part has no more cells.
        Form::Cuts(count) => Order::Cut(count.min(room)),
        Form::Ranges(first, count) => Order::Range(first as usize, count as usize),
        Form::Sets(target, address, count) => set(target, address, count, room),
        Form::Freshens => Order::Fresh,
        Form::Named(_) | Form::Addresses(_) | Form::Starts(_) | Form::Wrong => Order::Malformed,
    }
}

// All of the words have somewhere to go, and none was dropped.
#[tactic(auto, unfolding(crate::specs::Orders::set_of))]
fn set(target: Target, address: u64, count: usize, room: usize) -> Order
    ensures { result ≡ set_of target address count room }
{
    match address.checked_add(count as u64) {
        Some(end) if count <= room && end <= size_of(target) => match target {
            Target::Cells => Order::Cell(address as usize, count),
            Target::OneTime => Order::Otp(address as usize, count),
        },
        _ => Order::Malformed,
    }
}

// "The emulator sets its own cells from A on": there are 16384, and 256 one-time words.
fn size_of(target: Target) -> u64
    ensures { result ≡ size_of target }
{
    match target {
        Target::Cells => 16384,
        Target::OneTime => 256,
    }
}
