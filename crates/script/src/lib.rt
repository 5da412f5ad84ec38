// The language of event scripts, a byte at a time: a line of any length is kept in a few numbers, and its words in room that the
// caller lends. It knows nothing of the device.
#![tactic(auto)]

ghost use Rattle.std.specs.Prelude.{◌≡◌, length};
ghost use Rattle.language.specs.Orders.{Within};
ghost use Rattle.script.specs.Lines.{no_line, fed_line, fed_words, ended_order, ended_words};

mod orders;

use forms::Form;
pub use language::Order;
use spelling::Item;

// A line as far as it is read.
#[derive(Clone, Copy)]
pub struct Line {
    form: Form,
    // The item under way.
    item: Item,
    // A CR that is ignored if the line ends here.
    held: bool,
}

pub fn begin() -> Line
    ensures { result ≡ no_line }
{
    Line {
        form: Form::Empty,
        item: spelling::nothing(),
        held: false,
    }
}

// The line with one byte more. "A CR before [the LF] is ignored": any other is a byte like any other.
#[tactic(auto, unfolding(crate::specs::Lines::fed_line, crate::specs::Lines::fed_words))]
pub fn fed(mut line: Line, byte: u8, words: &mut [u16]) -> Line
    ensures value { result ≡ fed_line line byte (length words.old) }
    ensures words_after { words.new ≡ fed_words line byte words.old }
{
    if line.held {
        line.item = spelling::next(line.item, b'\r');
        line.held = false;
    }
    match byte {
        b'\r' => line.held = true,
        // "Items are separated by blanks or tabs."
        b' ' | b'\t' => {
            line.form = forms::taken(line.form, line.item, words);
            line.item = spelling::nothing();
        }
        _ => line.item = spelling::next(line.item, byte),
    }
    line
}

// What the line asks for: the LF or the end of the input is here.
#[tactic(auto, using(crate::proofs::Within::order_within), unfolding(crate::specs::Lines::ended_order, crate::specs::Lines::ended_words))]
pub fn ended(line: Line, words: &mut [u16]) -> Order
    ensures value { result ≡ ended_order line (length words.old) }
    ensures words_after { words.new ≡ ended_words line words.old }
    ensures within { Within result (length words.old) }
{
    let whole = forms::taken(line.form, line.item, words);
    orders::order_of(whole, words.len())
}
