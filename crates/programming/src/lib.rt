// What time does to programs: "A program takes 6 µs and leaves old AND data."
#![tactic(auto)]

ghost use Rattle.std.specs.Prelude.{◌≡◌, true};
ghost use Rattle.plain.specs.declared.Operation.TheVariants.{Programming, EraseSuspended, OneTimeProgramming};
ghost use Rattle.plain.specs.Lent.{lent, Whole};
ghost use Rattle.plain.specs.Programs.{lies_in};
ghost use Rattle.plain.specs.Time.{moment, ticks};
ghost use Rattle.moments.specs.Moments.{Room, Passable, moved};
ghost use Rattle.programming.specs.Run.{drawn_by, left_of, lent_after};

use geometry::Part;
use meter::Meter;
use moments::Moved;
use plain::{Inside, Operation, Program, SuspendedErase};

pub fn pass_program(
    part: Part,
    meter: Meter,
    q: Program,
    cells: &mut [u16],
    otp: &mut [u16],
    n: u64,
) -> Moved
    requires { Passable part meter (Programming q) (lent cells.old otp.old) n }
    ensures value { result ≡ moved (ticks part n (moment meter (Programming q) (lent cells.old otp.old))) }
    ensures cells_after { cells.new ≡ (ticks part n (moment meter (Programming q) (lent cells.old otp.old))).lent.cells }
    ensures otp_after { otp.new ≡ (ticks part n (moment meter (Programming q) (lent cells.old otp.old))).lent.otp }
{
    let (meter, left) = run(part, meter, q, cells, otp, n);
    Moved {
        meter,
        operation: left.map_or(Operation::Idle, Operation::Programming),
    }
}

// "When a program inside a suspended erase ends, the erase stays suspended."
pub fn pass_suspended(
    part: Part,
    meter: Meter,
    s: SuspendedErase,
    cells: &mut [u16],
    otp: &mut [u16],
    n: u64,
) -> Moved
    requires { Passable part meter (EraseSuspended s) (lent cells.old otp.old) n }
    ensures value { result ≡ moved (ticks part n (moment meter (EraseSuspended s) (lent cells.old otp.old))) }
    ensures cells_after { cells.new ≡ (ticks part n (moment meter (EraseSuspended s) (lent cells.old otp.old))).lent.cells }
    ensures otp_after { otp.new ≡ (ticks part n (moment meter (EraseSuspended s) (lent cells.old otp.old))).lent.otp }
{
    match s.inside {
        Inside::Nothing => Moved {
            meter: moments::stood_by(part, meter, n),
            operation: Operation::EraseSuspended(s),
        },
        Inside::Runs(q) => {
            let (meter, left) = run(part, meter, q, cells, otp, n);
            Moved {
                meter,
                operation: Operation::EraseSuspended(SuspendedErase {
                    inside: left.map_or(Inside::Nothing, Inside::Runs),
                    ..s
                }),
            }
        }
    }
}

// The one-time block stays entered when a program in it ends.
pub fn pass_one_time(
    part: Part,
    meter: Meter,
    q: Program,
    cells: &mut [u16],
    otp: &mut [u16],
    n: u64,
) -> Moved
    requires { Passable part meter (OneTimeProgramming q) (lent cells.old otp.old) n }
    ensures value { result ≡ moved (ticks part n (moment meter (OneTimeProgramming q) (lent cells.old otp.old))) }
    ensures cells_after { cells.new ≡ (ticks part n (moment meter (OneTimeProgramming q) (lent cells.old otp.old))).lent.cells }
    ensures otp_after { otp.new ≡ (ticks part n (moment meter (OneTimeProgramming q) (lent cells.old otp.old))).lent.otp }
{
    let (meter, left) = run(part, meter, q, cells, otp, n);
    Moved {
        meter,
        operation: left.map_or(Operation::InOneTime, Operation::OneTimeProgramming),
    }
}

// A program runs, wherever it stands: the meter, and what is left of it. When its time is over its word is written, and the rest of the
// wait draws the standby current.
fn run(
    part: Part,
    meter: Meter,
    q: Program,
    cells: &mut [u16],
    otp: &mut [u16],
    n: u64,
) -> (Meter, Option<Program>)
    requires room { Room part meter n }
    requires whole { Whole part (lent cells.old otp.old) × (lies_in part q.writes ≡ true) }
    ensures meter { result.0 ≡ drawn_by part meter q n }
    ensures left { result.1 ≡ left_of q n }
    ensures cells_after { cells.new ≡ (lent_after q n (lent cells.old otp.old)).cells }
    ensures otp_after { otp.new ≡ (lent_after q n (lent cells.old otp.old)).otp }
{
    let left = q.left;
    if n < left {
        return (
            moments::ran(part, meter, n),
            Some(Program {
                left: left - n,
                ..q
            }),
        );
    }
    programs::finish(part, q.writes, cells, otp);
    let ended = moments::ran(part, meter, left);
    (moments::stood_by(part, ended, n - left), None)
}
