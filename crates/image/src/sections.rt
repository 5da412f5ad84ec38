// Words from a place on: five for a set of blocks.
ghost use Rattle.std.specs.Prelude.{◌≡◌, ◌+◌, ◌≤◌};
ghost use Rattle.layout.specs.Places.{record_words};
ghost use Rattle.layout.specs.Image.{blocks_at};

use blocks::Blocks;
use layout::RECORD_WORDS;

pub fn blocks_at(words: &[u64; RECORD_WORDS], from: usize) -> Blocks
    requires { from + 5 ≤ record_words }
    ensures { result ≡ blocks_at words.now from }
{
    Blocks {
        w0: words[from],
        w1: words[from + 1],
        w2: words[from + 2],
        w3: words[from + 3],
        w4: words[from + 4],
    }
}
