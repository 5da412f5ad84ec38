// The two parts, their blocks and their banks (document 01, "The die and its small twin").
#![tactic(auto)]

ghost use Rattle.std.specs.Prelude.{◌≡◌, ◌*◌, ◌/◌};
ghost use Rattle.geometry.specs.declared.Part.TheVariants.{Small, Full};
ghost use Rattle.geometry.specs.Parts.{word_count, block_count, bank_count, unit_of, block_of, bank_of, first_of, size_of, bank_of_block};

pub mod asked;
mod runs;

// One of the two parts: there is no other value.
#[derive(Clone, Copy)]
pub enum Part {
    Small,
    Full,
}

impl Part {
    // What the small part owns: its counts, its block sizes, and the first words and the first blocks of its banks.
    pub const SMALL_WORDS: usize = 16384;

    pub const SMALL_BLOCKS: usize = 270;

    pub const SMALL_BANKS: usize = 4;

    pub const SMALL_BOOT_BLOCK: usize = 8;

    pub const SMALL_MAIN_BLOCK: usize = 64;

    pub const SMALL_BANK_WORDS: [usize; 4] = [0, 2048, 8192, 14336];

    pub const SMALL_BANK_BLOCKS: [usize; 4] = [0, 39, 135, 231];

    // What the die owns.
    pub const FULL_WORDS: usize = 8388608;

    pub const FULL_BLOCKS: usize = 270;

    pub const FULL_BANKS: usize = 4;

    pub const FULL_BOOT_BLOCK: usize = 4096;

    pub const FULL_MAIN_BLOCK: usize = 32768;

    pub const FULL_BANK_WORDS: [usize; 4] = [0, 1048576, 4194304, 7340032];

    pub const FULL_BANK_BLOCKS: [usize; 4] = [0, 39, 135, 231];

    pub fn small() -> Self
        ensures { result ≡ Small }
    {
        Part::Small
    }

    pub fn full() -> Self
        ensures { result ≡ Full }
    {
        Part::Full
    }

    #[tactic(auto, unfolding(crate::specs::Parts::unit_of))]
    pub fn words(self) -> usize
        ensures { result ≡ word_count self }
    {
        match self {
            Part::Small => Part::SMALL_WORDS,
            Part::Full => Part::FULL_WORDS,
        }
    }

    #[tactic(auto, unfolding(crate::specs::Parts::block_count))]
    pub fn blocks(self) -> usize
        ensures { result ≡ block_count self }
    {
        match self {
            Part::Small => Part::SMALL_BLOCKS,
            Part::Full => Part::FULL_BLOCKS,
        }
    }

    #[tactic(auto, unfolding(crate::specs::Parts::bank_count))]
    pub fn banks(self) -> usize
        ensures { result ≡ bank_count self }
    {
        match self {
            Part::Small => Part::SMALL_BANKS,
            Part::Full => Part::FULL_BANKS,
        }
    }

    // The block of an address. Of an address past the part it tells the number that a block there would have.
    pub fn block_of(self, address: usize) -> usize
        ensures { result ≡ block_of self address }
    {
        runs::block_in(self.unit_at(address))
    }

    #[tactic(auto, unfolding(crate::specs::Parts::unit_of, crate::specs::Parts::bank_of, crate::specs::Runs::bank_by))]
    pub fn bank_of(self, address: usize) -> usize
        ensures { result ≡ bank_of self address }
    {
        match self {
            Part::Small => runs::bank_by(Part::SMALL_BANK_WORDS, address),
            Part::Full => runs::bank_by(Part::FULL_BANK_WORDS, address),
        }
    }

    #[tactic(auto, unfolding(crate::specs::Parts::bank_in, crate::specs::Parts::bank_of_block, crate::specs::Runs::bank_by))]
    pub fn bank_of_block(self, block: usize) -> usize
        ensures { result ≡ bank_of_block self block }
    {
        match self {
            Part::Small => runs::bank_by(Part::SMALL_BANK_BLOCKS, block),
            Part::Full => runs::bank_by(Part::FULL_BANK_BLOCKS, block),
        }
    }

    // The first word of a block; the word count of a number past the last block.
    #[tactic(auto, using(crate::proofs::Units::first_le), unfolding(crate::specs::Parts::unit_of))]
    pub fn first_of(self, block: usize) -> usize
        ensures { result ≡ first_of self block }
    {
        let units = runs::first_in(block);
        match self {
            Part::Small => Part::SMALL_BOOT_BLOCK * units,
            Part::Full => Part::FULL_BOOT_BLOCK * units,
        }
    }

    // How many words a block has; none of a number past the last block.
    #[tactic(auto, unfolding(crate::specs::Parts::unit_of, crate::specs::Parts::size_in, crate::specs::Runs::size_by))]
    pub fn size_of(self, block: usize) -> usize
        ensures { result ≡ size_of self block }
    {
        match self {
            Part::Small => runs::size_by(Part::SMALL_BOOT_BLOCK, Part::SMALL_MAIN_BLOCK, block),
            Part::Full => runs::size_by(Part::FULL_BOOT_BLOCK, Part::FULL_MAIN_BLOCK, block),
        }
    }

    // How many whole units lie before an address. A constant divides, so that it is a shift.
    #[tactic(auto, unfolding(crate::specs::Parts::unit_of))]
    fn unit_at(self, address: usize) -> usize
        ensures { result ≡ address / unit_of self }
    {
        match self {
            Part::Small => address / Part::SMALL_BOOT_BLOCK,
            Part::Full => address / Part::FULL_BOOT_BLOCK,
        }
    }
}
