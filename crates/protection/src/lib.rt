// Which blocks are protected: a DYB and a PPB for each block, and the bit that locks the PPBs (document 01, "Command
// cycles"); and which one-time words are locked (document 02, request 4). 1 means protected.
#![tactic(auto)]

ghost use Rattle.std.specs.Prelude.{◌≡◌};
ghost use Rattle.protection.specs.Protection.{fresh_bits, dyb_set, dyb_cleared, ppb_set, ppbs_cleared, locked, sealed_for, word_locked, after_cut, protected, protected_blocks, unprotected, stray_bits};

use blocks::Blocks;
use geometry::Part;

// The lower one-time words are the factory's.
const FACTORY_WORDS: usize = 128;

#[derive(Clone, Copy)]
pub struct Protection {
    pub dyb: Blocks,
    pub ppb: Blocks,
    pub lock: bool,
    // The customer's lock of the one-time words.
    pub sealed: bool,
}

impl Protection {
    pub fn fresh() -> Self
        ensures { result ≡ fresh_bits }
    {
        Protection {
            dyb: Blocks::empty(),
            ppb: Blocks::empty(),
            lock: false,
            sealed: false,
        }
    }

    pub fn with_dyb(self, block: usize) -> Self
        ensures { result ≡ dyb_set self block }
    {
        Protection {
            dyb: self.dyb.with(block),
            ..self
        }
    }

    pub fn without_dyb(self, block: usize) -> Self
        ensures { result ≡ dyb_cleared self block }
    {
        Protection {
            dyb: self.dyb.without(block),
            ..self
        }
    }

    pub fn with_ppb(self, block: usize) -> Self
        ensures { result ≡ ppb_set self block }
    {
        Protection {
            ppb: self.ppb.with(block),
            ..self
        }
    }

    pub fn without_ppbs(self) -> Self
        ensures { result ≡ ppbs_cleared self }
    {
        Protection {
            ppb: Blocks::empty(),
            ..self
        }
    }

    pub fn with_lock(self) -> Self
        ensures { result ≡ locked self }
    {
        Protection { lock: true, ..self }
    }

    // Once set it is set for ever: nothing here clears it.
    pub fn with_seal(self) -> Self
        ensures { result ≡ sealed_for self }
    {
        Protection {
            sealed: true,
            ..self
        }
    }

    pub fn after_cut(self) -> Self
        ensures { result ≡ after_cut self }
    {
        Protection {
            dyb: Blocks::empty(),
            lock: false,
            ..self
        }
    }

    // The one check of a block, and below the one set of them: whoever asks goes through these two.
    #[tactic(auto, unfolding(crate::specs::Protection::protected_by))]
    pub fn is_protected(self, block: usize) -> bool
        ensures { result ≡ protected self block }
    {
        self.dyb.has(block) || self.ppb.has(block)
    }

    // The one check of a one-time word.
    #[tactic(auto, unfolding(crate::specs::Protection::word_locked_by))]
    pub fn locks_word(self, at: usize) -> bool
        ensures { result ≡ word_locked self at }
    {
        at < FACTORY_WORDS || self.sealed
    }

    #[tactic(auto, unfolding(crate::specs::Protection::protected_by))]
    pub fn protected_blocks(self) -> Blocks
        ensures { result ≡ protected_blocks self }
    {
        self.dyb.union(self.ppb)
    }

    // The blocks that may be programmed and erased.
    pub fn unprotected(self, part: Part) -> Blocks
        ensures { result ≡ unprotected part self }
    {
        regions::blocks_of(part).minus(self.protected_blocks())
    }

    // Is there a bit for a number that is no block's?
    pub fn has_stray(self, part: Part) -> bool
        ensures { result ≡ stray_bits part self }
    {
        regions::has_stray(part, self.dyb) || regions::has_stray(part, self.ppb)
    }
}
