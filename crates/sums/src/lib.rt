// The two sums over words that the `end` line and the line of a range tell: of the cells, the one-time words, or the range.
#![tactic(auto)]

ghost use Rattle.std.specs.Prelude.{◌≡◌, ◌<◌};
ghost use Rattle.sums.specs.Sums.{with_cell, sums_of};

#[derive(Clone, Copy)]
pub struct Sums {
    pub first: u64,
    pub second: u64,
}

// "S1 and S2 start at 0 and for each cell, in rising address, .."
#[tactic(auto, unfolding(crate::specs::Sums::summed))]
pub fn sums_of(cells: &[u16]) -> Sums
    ensures { result ≡ sums_of cells.now }
{
    let mut sums = Sums {
        first: 0,
        second: 0,
    };
    for &cell in cells {
        sums = with_cell(sums, cell);
    }
    sums
}

// "S1 = (S1 + cell) mod 65521 and S2 = (S2 + S1) mod 65521."
fn with_cell(sums: Sums, cell: u16) -> Sums
    requires { (sums.first < 65521) × (sums.second < 65521) }
    ensures { result ≡ with_cell sums cell }
{
    let first = (sums.first + u64::from(cell)) % 65521;
    Sums {
        first,
        second: (sums.second + first) % 65521,
    }
}
