// What time does to an erase that recovers from B0H: "the block makes no progress, running current is drawn" (document 02, request 1),
// and when the recovery is over it is suspended.
#![tactic(auto)]

ghost use Rattle.std.specs.Prelude.{◌≤◌};
ghost use Rattle.plain.specs.declared.Operation.TheVariants.{Recovering};
ghost use Rattle.moments.specs.Moments.{Room, MovesAlone};

use geometry::Part;
use meter::Meter;
use moments::Moved;
use plain::{Inside, Operation, Recovery, SuspendedErase};

// Whatever is lent stays as it is: no cell changes.
pub fn pass_recovery(part: Part, meter: Meter, recovery: Recovery, n: u64) -> Moved
    requires room { Room part meter n }
    requires le_left { 1 ≤ recovery.left }
    ensures { MovesAlone part n meter (Recovering recovery) result }
{
    let Recovery { erase, left } = recovery;
    if n < left {
        return Moved {
            meter: moments::ran(part, meter, n),
            operation: Operation::Recovering(Recovery {
                left: left - n,
                ..recovery
            }),
        };
    }
    let recovered = moments::ran(part, meter, left);
    Moved {
        meter: moments::stood_by(part, recovered, n - left),
        operation: Operation::EraseSuspended(SuspendedErase {
            erase,
            inside: Inside::Nothing,
        }),
    }
}
