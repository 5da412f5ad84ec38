// Words that are not in use.
ghost use Rattle.std.specs.Prelude.{◌≡◌, ◌≤◌};
ghost use Rattle.layout.specs.Places.{record_words};
ghost use Rattle.layout.specs.Image.{unused};

use layout::RECORD_WORDS;

// Are the words up to another place all 0? Their OR is asked, once.
pub fn are_unused(words: &[u64; RECORD_WORDS], from: usize, end: usize) -> bool
    requires { (from ≤ end) × (end ≤ record_words) }
    ensures { result ≡ unused words.now from end }
{
    let mut joined = 0;
    for word in &words[from..end] {
        joined |= word;
    }
    joined == 0
}
