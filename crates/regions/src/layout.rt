// Both parts have the same 270 blocks in the same four banks, which start with the blocks 0, 39, 135 and 231.
ghost use Rattle.std.specs.Prelude.{◌≡◌, ◌&&◌, not, ltb, eqb};
ghost use Rattle.blocks.specs.Blocks.{set_of};
ghost use Rattle.geometry.specs.Parts.{bank_in};

use blocks::Blocks;

const ALL: u64 = 0xffffffffffffffff;

// Four whole words, and 14 bits more.
pub const BLOCKS: Blocks = Blocks {
    w0: ALL,
    w1: ALL,
    w2: ALL,
    w3: ALL,
    w4: 0x3fff,
};

pub const STRANGERS: Blocks = Blocks {
    w0: 0,
    w1: 0,
    w2: 0,
    w3: 0,
    w4: 0xffffffffffffc000,
};

const OUTSIDE_0: Blocks = Blocks {
    w0: 0xffffff8000000000,
    w1: ALL,
    w2: ALL,
    w3: ALL,
    w4: ALL,
};

const OUTSIDE_1: Blocks = Blocks {
    w0: 0x0000007fffffffff,
    w1: 0,
    w2: 0xffffffffffffff80,
    w3: ALL,
    w4: ALL,
};

const OUTSIDE_2: Blocks = Blocks {
    w0: ALL,
    w1: ALL,
    w2: 0x000000000000007f,
    w3: 0xffffff8000000000,
    w4: ALL,
};

const OUTSIDE_3: Blocks = Blocks {
    w0: ALL,
    w1: ALL,
    w2: ALL,
    w3: 0x0000007fffffffff,
    w4: STRANGERS.w4,
};

const EVERY: Blocks = Blocks {
    w0: ALL,
    w1: ALL,
    w2: ALL,
    w3: ALL,
    w4: ALL,
};

// The numbers that are no block of the bank; every number, where there is no such bank.
#[tactic(auto, unfolding(blocks::specs::Blocks::set_of, blocks::specs::Blocks::pack, geometry::specs::Parts::bank_in))]
pub fn outside(bank: usize) -> Blocks
    ensures { result ≡ set_of (λ b. not (ltb b 270 && eqb (bank_in b) bank)) }
{
    match bank {
        0 => OUTSIDE_0,
        1 => OUTSIDE_1,
        2 => OUTSIDE_2,
        3 => OUTSIDE_3,
        _ => EVERY,
    }
}
