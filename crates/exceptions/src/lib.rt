// The lines that an accepted cut adds to its answer: each function puts its line on a page, behind what is there.
#![tactic(auto)]

ghost use Rattle.std.specs.Prelude.{◌≡◌};
ghost use Rattle.plain.specs.Lent.{lent};
ghost use Rattle.printing.specs.Page.{HasRoom, Adds};
ghost use Rattle.exceptions.specs.Exceptions.{block_lines, word_lines, word_in};

use geometry::Part;
use plain::Spot;
use printing::Page;

#[tactic(auto, using(crate::proofs::Blocks::block_end), unfolding(crate::specs::Exceptions::block_lines))]
pub fn block(page: &mut Page, line: u64, place: Option<usize>)
    requires { HasRoom page.old 90 }
    ensures { Adds page.old page.new (block_lines line place) 90 }
{
    match place {
        None => {}
        Some(block) => {
            let part = Part::small();
            let first = part.first_of(block);
            let last = first + part.size_of(block) - 1;
            telling::block(page, line, block, first, last);
        }
    }
}

#[tactic(auto, unfolding(crate::specs::Exceptions::word_lines))]
pub fn word(page: &mut Page, line: u64, spot: Option<Spot>, before: u16, after: u16)
    requires { HasRoom page.old 57 }
    ensures { Adds page.old page.new (word_lines line spot before after) 57 }
{
    match spot {
        None => {}
        Some(spot) => telling::word(page, line, spot.array, spot.at, before, after),
    }
}

// The word at a spot; 0 if there is none.
#[tactic(auto, unfolding(crate::specs::Exceptions::word_in))]
pub fn word_at(cells: &[u16], otp: &[u16], spot: Option<Spot>) -> u16
    ensures { result ≡ word_in (lent cells.now otp.now) spot }
{
    match spot {
        None => 0,
        Some(spot) => {
            let words = spot.array.among(cells, otp);
            words.get(spot.at).copied().unwrap_or(0)
        }
    }
}
