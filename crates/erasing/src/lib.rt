// What time does to erases: "listed blocks are erased in rising number, 700,000 µs each, to FFFFH".
#![tactic(auto)]

ghost use Rattle.std.specs.Prelude.{◌≡◌, ◌<◌, length};
ghost use Rattle.cells.specs.Cells.{erased};
ghost use Rattle.geometry.specs.Parts.{word_count, first_of, size_of};
ghost use Rattle.plain.specs.declared.Operation.TheVariants.{Window};
ghost use Rattle.plain.specs.Lent.{lent};
ghost use Rattle.plain.specs.Time.{moment, ticks};
ghost use Rattle.moments.specs.Moments.{Passable, moved};
ghost use Rattle.erasing.specs.Kinds.{erasing, block_time};
ghost use Rattle.erasing.specs.Hand.{next_hand};

use geometry::Part;
use meter::Meter;
use moments::Moved;
use plain::{Erase, Operation, figures};

// An erase of listed blocks, or one of the whole chip.
#[derive(Clone, Copy)]
pub enum Kind {
    Block,
    Chip,
}

impl Kind {
    fn erasing(self, e: Erase) -> Operation
        ensures { result ≡ erasing self e }
    {
        match self {
            Kind::Block => Operation::Erasing(e),
            Kind::Chip => Operation::ChipErasing(e),
        }
    }

    // 700,000 µs for a block of a block erase, 500,000 µs for one of a chip erase.
    fn block_time(self, part: Part) -> u64
        ensures { result ≡ block_time part self }
    {
        match self {
            Kind::Block => figures::erase_time(part),
            Kind::Chip => figures::chip_time(part),
        }
    }
}

// The window runs out, and the first block is in hand with its full time.
pub fn pass_window(
    part: Part,
    meter: Meter,
    e: Erase,
    cells: &mut [u16],
    otp: &[u16],
    n: u64,
) -> Moved
    requires { Passable part meter (Window e) (lent cells.old otp.now) n }
    ensures value { result ≡ moved (ticks part n (moment meter (Window e) (lent cells.old otp.now))) }
    ensures cells_after { cells.new ≡ (ticks part n (moment meter (Window e) (lent cells.old otp.now))).lent.cells }
    ensures otp_value { otp.now ≡ (ticks part n (moment meter (Window e) (lent cells.old otp.now))).lent.otp }
{
    let left = e.left;
    if n < left {
        return Moved {
            meter: moments::stood_by(part, meter, n),
            operation: Operation::Window(Erase {
                left: left - n,
                ..e
            }),
        };
    }
    pass_erase(
        part,
        Kind::Block,
        moments::stood_by(part, meter, left),
        Erase {
            left: Kind::Block.block_time(part),
            ..e
        },
        cells,
        otp,
        n - left,
    )
}

// A turn for each block that is finished: `while`, as the time that is left ends it, and no index.
pub fn pass_erase(
    part: Part,
    kind: Kind,
    meter: Meter,
    e: Erase,
    cells: &mut [u16],
    otp: &[u16],
    n: u64,
) -> Moved
    requires { Passable part meter (erasing kind e) (lent cells.old otp.now) n }
    ensures value { result ≡ moved (ticks part n (moment meter (erasing kind e) (lent cells.old otp.now))) }
    ensures cells_after { cells.new ≡ (ticks part n (moment meter (erasing kind e) (lent cells.old otp.now))).lent.cells }
    ensures otp_value { otp.now ≡ (ticks part n (moment meter (erasing kind e) (lent cells.old otp.now))).lent.otp }
{
    let mut at = e;
    let mut spent = meter;
    let mut rest = n;
    while at.left <= rest {
        finish(part, at, cells);
        spent = moments::ran(part, spent, at.left);
        rest -= at.left;
        let Some(next) = after(part, at, kind.block_time(part)) else {
            return Moved {
                meter: moments::stood_by(part, spent, rest),
                operation: Operation::Idle,
            };
        };
        at = next;
    }
    Moved {
        meter: moments::ran(part, spent, rest),
        operation: kind.erasing(Erase {
            left: at.left - rest,
            ..at
        }),
    }
}

// The next listed block in hand, with its full time.
fn after(part: Part, e: Erase, full: u64) -> Option<Erase>
    requires { e.hand < 320 }
    ensures { result ≡ next_hand part e full }
{
    let hand = e.list.first_from(e.hand + 1);
    (hand < part.blocks()).then_some(Erase {
        hand,
        left: full,
        ..e
    })
}

// The block in hand is finished.
fn finish(part: Part, e: Erase, cells: &mut [u16])
    requires { length cells.old ≡ word_count part }
    ensures { cells.new ≡ erased cells.old (first_of part e.hand) (size_of part e.hand) }
{
    cells::erase(cells, part.first_of(e.hand), part.size_of(e.hand));
}
