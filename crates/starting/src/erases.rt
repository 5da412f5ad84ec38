// An erase begins.
ghost use Rattle.std.specs.Prelude.{◌≡◌};
ghost use Rattle.plain.specs.Commands.{chip_erase, block_erase};

use blocks::Blocks;
use geometry::Part;
use plain::{Effect, Erase, Operation, Refusal, figures};
use protection::Protection;

// "its list is every unprotected block, in rising number"
pub fn chip_erase(part: Part, bits: Protection) -> Effect
    ensures { result ≡ chip_erase part bits }
{
    let list = bits.unprotected(part);
    if list.is_empty() {
        return Effect::Falls(Refusal::Protected);
    }
    Effect::Starts(Operation::ChipErasing(Erase {
        list,
        hand: list.first_from(0),
        left: figures::chip_time(part),
        dq6: false,
        dq2: false,
    }))
}

// A block erase begins with its window.
pub fn block_erase(part: Part, bits: Protection, block: usize) -> Effect
    ensures { result ≡ block_erase part bits block }
{
    if bits.is_protected(block) {
        return Effect::Falls(Refusal::Protected);
    }
    Effect::Starts(Operation::Window(Erase {
        list: Blocks::empty().with(block),
        hand: block,
        left: figures::window_time(part),
        dq6: false,
        dq2: false,
    }))
}
