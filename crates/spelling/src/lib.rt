// An item, byte by byte: "items are separated by blanks or tabs". It is read as a word of the language and as a number, both at
// once, since what it has to be is asked when it is whole.
#![tactic(auto)]

ghost use Rattle.std.specs.Prelude.{◌≡◌};
ghost use Rattle.spelling.specs.Items.{no_item, next_item, number_of, words_of, starred_by, spelt_on, remarks_on};

mod numbers;

pub use numbers::Number;

#[derive(Clone, Copy)]
pub struct Item {
    // 1, then a digit of base 256 for each of the first six bytes: no word of the language has so many.
    pub letters: u64,
    // Is its first byte `#`?
    pub remark: bool,
    pub times: Times,
    // The number, or what stands behind the last `*`.
    pub number: Number,
}

// "`N*W` stands for N times W, N at most 16384."
#[derive(Clone, Copy)]
pub enum Times {
    Once,
    Of(u64),
    Wrong,
}

// An item as words: how many times which.
#[derive(Clone, Copy)]
pub struct Words {
    pub times: u64,
    pub word: u16,
}

// No byte yet.
pub fn nothing() -> Item
    ensures { result ≡ no_item }
{
    Item {
        letters: 1,
        remark: false,
        times: Times::Once,
        number: Number::Nothing,
    }
}

#[tactic(auto, unfolding(crate::specs::Items::next_item))]
pub fn next(mut item: Item, byte: u8) -> Item
    ensures { result ≡ next_item item byte }
{
    item.remark = remarks(item.letters, item.remark, byte);
    item.letters = spelt(item.letters, byte);
    if byte == b'*' {
        item.times = starred(item.times, numbers::value_of(item.number));
        item.number = Number::Nothing;
    } else {
        item.number = numbers::next(item.number, byte);
    }
    item
}

// The item as a number, which nothing repeats.
#[tactic(auto, unfolding(crate::specs::Items::unrepeated))]
pub fn number_of(item: Item) -> Option<u64>
    ensures { result ≡ number_of item }
{
    match item.times {
        Times::Once => numbers::value_of(item.number),
        Times::Of(_) | Times::Wrong => None,
    }
}

// The item as words, W or `N*W`: "a word at most FFFFH".
#[tactic(auto, unfolding(crate::specs::Items::as_words, crate::specs::Items::repeated_by, crate::specs::Items::words_by))]
pub fn words_of(item: Item) -> Option<Words>
    ensures { result ≡ words_of item }
{
    let word = u16::try_from(numbers::value_of(item.number)?).ok()?;
    match item.times {
        Times::Once => Some(Words { times: 1, word }),
        Times::Of(times) => Some(Words { times, word }),
        Times::Wrong => None,
    }
}

// A `*` behind a number: the first of the item, "N at most 16384".
#[tactic(auto, unfolding(crate::specs::Items::starred_by, crate::specs::Items::counted_by))]
fn starred(times: Times, number: Option<u64>) -> Times
    ensures { result ≡ starred_by times number }
{
    match (times, number) {
        (Times::Once, Some(n)) if n <= 16384 => Times::Of(n),
        _ => Times::Wrong,
    }
}

#[tactic(auto, unfolding(crate::specs::Items::spelt_on))]
fn spelt(letters: u64, byte: u8) -> u64
    ensures { result ≡ spelt_on letters byte }
{
    if 0xffffffffffff < letters {
        return letters;
    }
    letters * 256 + u64::from(byte)
}

#[tactic(auto, unfolding(crate::specs::Items::remarks_on))]
fn remarks(letters: u64, remark: bool, byte: u8) -> bool
    ensures { result ≡ remarks_on letters remark byte }
{
    if letters == 1 { byte == b'#' } else { remark }
}
