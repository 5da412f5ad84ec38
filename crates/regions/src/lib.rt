// The sets of blocks that a part has. Each is a constant: every event asks for one.
#![tactic(auto)]

ghost use Rattle.std.specs.Prelude.{◌≡◌};
ghost use Rattle.regions.specs.Regions.{blocks_of, strangers, outside_bank};
ghost use Rattle.regions.specs.Stray.{stray_in};

use blocks::Blocks;
use geometry::Part;

mod layout;

// The part's blocks.
#[tactic(auto, unfolding(blocks::specs::Blocks::set_of, blocks::specs::Blocks::pack, geometry::specs::Parts::block_count))]
pub fn blocks_of(part: Part) -> Blocks
    ensures { result ≡ blocks_of part }
{
    match part {
        Part::Small => layout::BLOCKS,
        Part::Full => layout::BLOCKS,
    }
}

// The numbers that are no block's.
#[tactic(auto, unfolding(blocks::specs::Blocks::set_of, blocks::specs::Blocks::pack, geometry::specs::Parts::block_count))]
pub fn strangers(part: Part) -> Blocks
    ensures { result ≡ strangers part }
{
    match part {
        Part::Small => layout::STRANGERS,
        Part::Full => layout::STRANGERS,
    }
}

// The numbers that are no block of the bank.
#[tactic(auto, unfolding(geometry::specs::Parts::block_count, geometry::specs::Parts::bank_of_block))]
pub fn outside_bank(part: Part, bank: usize) -> Blocks
    ensures { result ≡ outside_bank part bank }
{
    match part {
        Part::Small => layout::outside(bank),
        Part::Full => layout::outside(bank),
    }
}

// Is there a number in the set that is no block's?
pub fn has_stray(part: Part, set: Blocks) -> bool
    ensures { result ≡ stray_in part set }
{
    set.meets(strangers(part))
}
