// A wait: what time makes of the meter, the operation and what is lent, in leaps from happening to happening.
#![tactic(auto)]

ghost use Rattle.std.specs.Prelude.{◌≡◌};
ghost use Rattle.plain.specs.Lent.{lent};
ghost use Rattle.plain.specs.Time.{moment, ticks};
ghost use Rattle.moments.specs.Moments.{Passable, moved};

use erasing::Kind;
use geometry::Part;
use meter::Meter;
use moments::Moved;
use plain::Operation;

// Lets n microseconds pass. Its cost is what finishes in them, not how many they are.
pub fn pass(
    part: Part,
    meter: Meter,
    operation: Operation,
    cells: &mut [u16],
    otp: &mut [u16],
    n: u64,
) -> Moved
    requires { Passable part meter operation (lent cells.old otp.old) n }
    ensures value { result ≡ moved (ticks part n (moment meter operation (lent cells.old otp.old))) }
    ensures cells_after { cells.new ≡ (ticks part n (moment meter operation (lent cells.old otp.old))).lent.cells }
    ensures otp_after { otp.new ≡ (ticks part n (moment meter operation (lent cells.old otp.old))).lent.otp }
{
    match operation {
        Operation::Idle | Operation::ProgramSuspended(_) | Operation::InOneTime => Moved {
            meter: moments::stood_by(part, meter, n),
            operation,
        },
        Operation::Programming(q) => programming::pass_program(part, meter, q, cells, otp, n),
        Operation::Window(e) => erasing::pass_window(part, meter, e, cells, otp, n),
        Operation::Erasing(e) => erasing::pass_erase(part, Kind::Block, meter, e, cells, otp, n),
        Operation::Recovering(r) => recovering::pass_recovery(part, meter, r, n),
        Operation::EraseSuspended(s) => programming::pass_suspended(part, meter, s, cells, otp, n),
        Operation::ChipErasing(e) => erasing::pass_erase(part, Kind::Chip, meter, e, cells, otp, n),
        Operation::OneTimeProgramming(q) => programming::pass_one_time(
            part, meter, q, cells, otp, n,
        ),
    }
}
