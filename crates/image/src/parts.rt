// An erase and a program, from their words.
ghost use Rattle.std.specs.Prelude.{◌≡◌};
ghost use Rattle.layout.specs.Image.{erase_of, mode, program_of};

use crate::sections;
use layout::RECORD_WORDS;
use plain::{Erase, Program, Suspension, Written};

pub fn erase_of(words: &[u64; RECORD_WORDS]) -> Erase
    ensures { result ≡ erase_of words.now }
{
    let toggles = words[layout::TOGGLES_AT];
    Erase {
        list: sections::blocks_at(words, layout::LIST_AT),
        hand: words[layout::HAND_AT] as usize,
        left: words[layout::ERASE_LEFT_AT],
        dq6: toggles % 2 == 1,
        dq2: toggles / 2 == 1,
    }
}

// No word tells the array of a program: its address selects it.
pub fn program_of(words: &[u64; RECORD_WORDS], entered: bool) -> Program
    ensures { result ≡ program_of entered words.now }
{
    let at = words[layout::ADDRESS_AT] as usize;
    Program {
        writes: Written {
            at,
            word: (words[layout::DATA_AT] % 65536) as u16,
            array: operations::selected(mode(entered), at),
        },
        left: words[layout::PROGRAM_LEFT_AT],
        dq6: words[layout::TOGGLE_AT] == 1,
    }
}

fn mode(entered: bool) -> Suspension
    ensures { result ≡ mode entered }
{
    if entered {
        return Suspension::Entered;
    }
    Suspension::Unsuspended
}
