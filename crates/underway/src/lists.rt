// Is the list of an erase sound? Whole words are tested, not block by block.
ghost use Rattle.std.specs.Prelude.{◌≡◌, true, not};
ghost use Rattle.blocks.specs.Blocks.{has, meets_of, union_of};
ghost use Rattle.protection.specs.Protection.{protected_blocks};
ghost use Rattle.plain.specs.Sound.{list_sound, chip_list_sound, lowest};

use blocks::Blocks;
use geometry::Part;
use plain::Erase;
use protection::Protection;

// "an erase list is not empty, lies in one bank .., and holds no protected block; the block in hand is listed"
#[tactic(auto, using(crate::proofs::ByWords::in_bank), unfolding(plain::specs::Sound::list_sound))]
pub fn list_sound(part: Part, bits: Protection, erase: Erase) -> bool
    ensures { result ≡ list_sound part bits erase }
{
    let bank = part.bank_of_block(erase.hand);
    erase.list.has(erase.hand) && clear_of(erase.list, bits, regions::outside_bank(part, bank))
}

// "a chip erase may span all" banks
#[tactic(auto, using(crate::proofs::ByWords::in_part), unfolding(plain::specs::Sound::chip_list_sound))]
pub fn chip_list_sound(part: Part, bits: Protection, erase: Erase) -> bool
    ensures { result ≡ chip_list_sound part bits erase }
{
    erase.list.has(erase.hand) && clear_of(erase.list, bits, regions::strangers(part))
}

// "in the window it is the lowest": a listed block is, if the list starts with it
#[tactic(auto, using(crate::proofs::ByWords::starts), unfolding(plain::specs::Sound::lowest))]
pub fn lowest(erase: Erase) -> bool
    requires { has erase.list erase.hand ≡ true }
    ensures { result ≡ lowest erase }
{
    erase.list.first_from(0) == erase.hand
}

// Is no number of the list protected or among the others? One test of whole words, whatever the list's length.
fn clear_of(list: Blocks, bits: Protection, others: Blocks) -> bool
    ensures { result ≡ not (meets_of list (union_of (protected_blocks bits) others)) }
{
    !list.meets(bits.protected_blocks().union(others))
}
