// What a wait changes of the record, and the meter after n microseconds at one current (document 01, "Time, charge and the
// cells").
#![tactic(auto)]

ghost use Rattle.std.specs.Prelude.{◌≡◌, ◌*◌, ◌≤◌};
ghost use Rattle.meter.specs.Meter.{metered};
ghost use Rattle.plain.specs.Figures.{running_current, standby_current};
ghost use Rattle.moments.specs.Moments.{Room};

use geometry::Part;
use meter::Meter;
use plain::{Operation, figures};

#[derive(Clone, Copy)]
pub struct Moved {
    pub meter: Meter,
    pub operation: Operation,
}

// `Room` and `Passable` stay clauses and go into no type: docs/DECISIONS.md, "Functions that ask", names the functions by what they ask.

// "Every other µs, window and suspension included, draws 15 pC".
#[tactic(auto, unfolding(plain::specs::Figures::running_current, plain::specs::Figures::standby_current))]
pub fn stood_by(part: Part, meter: Meter, n: u64) -> Meter
    requires { Room part meter n }
    ensures { result ≡ metered meter n (n * standby_current part) }
{
    drew(part, meter, n, figures::standby_current(part))
}

// "Running programs and erases draw 17,000 pC per µs".
#[tactic(auto, unfolding(plain::specs::Figures::running_current))]
pub fn ran(part: Part, meter: Meter, n: u64) -> Meter
    requires { Room part meter n }
    ensures { result ≡ metered meter n (n * running_current part) }
{
    drew(part, meter, n, figures::running_current(part))
}

// No current is above the running one, so that the sums fit.
fn drew(part: Part, meter: Meter, n: u64, current: u64) -> Meter
    requires room { Room part meter n }
    requires most { current ≤ running_current part }
    ensures { result ≡ metered meter n (n * current) }
{
    meter::advanced(meter, n, n * current)
}
