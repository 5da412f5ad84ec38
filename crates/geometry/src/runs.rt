// Blocks by arithmetic, in units of the boot block: eight blocks of one unit, 254 of eight, eight of one. Sizes and banks by a part's figures.
ghost use Rattle.std.specs.Prelude.{◌≡◌};
ghost use Rattle.geometry.specs.Parts.{block_in, first_in};
ghost use Rattle.geometry.specs.Runs.{bank_by, size_by};

// The block that a unit is in.
#[tactic(auto, unfolding(crate::specs::Parts::block_in))]
pub fn block_in(unit: usize) -> usize
    ensures { result ≡ block_in unit }
{
    if unit < 8 {
        return unit;
    }
    if unit < 2040 {
        return 7 + (unit >> 3);
    }
    262 + (unit - 2040)
}

// How many units lie before a block.
#[tactic(auto, unfolding(crate::specs::Parts::first_in))]
pub fn first_in(block: usize) -> usize
    ensures { result ≡ first_in block }
{
    if 270 <= block {
        return 2048;
    }
    if block < 8 {
        return block;
    }
    if block < 262 {
        return (block - 7) << 3;
    }
    2040 + (block - 262)
}

// The bank of a word or a block, by the first of each bank.
#[tactic(auto, unfolding(crate::specs::Runs::bank_by))]
pub fn bank_by(starts: [usize; 4], at: usize) -> usize
    ensures { result ≡ bank_by starts at }
{
    if at < starts[1] {
        return 0;
    }
    if at < starts[2] {
        return 1;
    }
    if at < starts[3] {
        return 2;
    }
    3
}

// The size of a block: boot blocks lie at both ends.
#[tactic(auto, unfolding(crate::specs::Runs::size_by))]
pub fn size_by(boot: usize, main: usize, block: usize) -> usize
    ensures { result ≡ size_by boot main block }
{
    if block < 8 {
        return boot;
    }
    if block < 262 {
        return main;
    }
    if block < 270 {
        return boot;
    }
    0
}
