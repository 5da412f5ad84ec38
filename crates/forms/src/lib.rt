// What a line is by the items that it has so far.
#![tactic(auto)]

ghost use Rattle.std.specs.Prelude.{◌≡◌, length, unwrap_or};
ghost use Rattle.forms.specs.declared.Form.TheVariants.{Wrong};
ghost use Rattle.spelling.specs.Items.{words_of};
ghost use Rattle.forms.specs.Forms.{taken_form, taken_words, taken_by, kept_by, named_by, verb_with, counted_to, stored_to};

mod words;

use spelling::Item;

// The words of the language that a number follows.
#[derive(Clone, Copy)]
pub enum Verb {
    Read,
    Write,
    Wait,
    Range,
    Cell,
    Otp,
}

// The words that a line sets. Not the arrays of `plain`: the language knows nothing of the device.
#[derive(Clone, Copy)]
pub enum Target {
    Cells,
    OneTime,
}

#[derive(Clone, Copy)]
pub enum Form {
    // No item yet.
    Empty,
    // A comment, whatever follows.
    Remark,
    // A verb whose number is to come.
    Named(Verb),
    // `read A`
    Reads(u64),
    // `write A`, whose word is to come
    Addresses(u64),
    // `write A W`
    Writes(u64, u16),
    // `wait D`
    Waits(u64),
    // `cut` and so many words
    Cuts(usize),
    // `range A`, whose number of words is to come
    Starts(u64),
    // `range A N`
    Ranges(u64, u64),
    // `cell A` or `otp A` and so many words
    Sets(Target, u64, usize),
    // `fresh`
    Freshens,
    // None of these, whatever follows.
    Wrong,
}

// The line with one item more, if it is one.
#[tactic(auto, unfolding(crate::specs::Forms::taken_form, crate::specs::Forms::taken_words))]
pub fn taken(form: Form, item: Item, words: &mut [u16]) -> Form
    ensures value { result ≡ taken_form form item (length words.old) }
    ensures words_after { words.new ≡ taken_words form item words.old }
{
    if item.letters == 1 {
        return form;
    }
    followed(form, item, words).unwrap_or(Form::Wrong)
}

// A line that an item follows, unless it is none then.
#[tactic(auto, unfolding(crate::specs::Forms::taken_by, crate::specs::Forms::kept_by))]
fn followed(form: Form, item: Item, words: &mut [u16]) -> Option<Form>
    ensures value { unwrap_or result Wrong ≡ taken_by form item (length words.old) }
    ensures words_after { words.new ≡ kept_by form item words.old }
{
    Some(match form {
        Form::Empty => named(item.letters, item.remark),
        Form::Remark => Form::Remark,
        Form::Named(verb) => numbered(verb, spelling::number_of(item)?),
        Form::Addresses(address) => Form::Writes(
            address,
            u16::try_from(spelling::number_of(item)?).ok()?,
        ),
        Form::Cuts(count) => Form::Cuts(added(count, item, words)?),
        Form::Starts(first) => Form::Ranges(first, spelling::number_of(item)?),
        Form::Sets(target, address, count) => Form::Sets(
            target,
            address,
            added(count, item, words)?,
        ),
        Form::Reads(_)
        | Form::Writes(_, _)
        | Form::Waits(_)
        | Form::Ranges(_, _)
        | Form::Freshens
        | Form::Wrong => return None,
    })
}

// The first item: the letters of each verb after a 1, as an item keeps them.
#[tactic(auto, unfolding(crate::specs::Forms::named_by))]
fn named(letters: u64, remark: bool) -> Form
    ensures { result ≡ named_by letters remark }
{
    if remark {
        return Form::Remark;
    }
    match letters {
        0x172656164 => Form::Named(Verb::Read),
        0x17772697465 => Form::Named(Verb::Write),
        0x177616974 => Form::Named(Verb::Wait),
        0x1637574 => Form::Cuts(0),
        0x172616e6765 => Form::Named(Verb::Range),
        0x163656c6c => Form::Named(Verb::Cell),
        0x16f7470 => Form::Named(Verb::Otp),
        0x16672657368 => Form::Freshens,
        _ => Form::Wrong,
    }
}

#[tactic(auto, unfolding(crate::specs::Forms::verb_with))]
fn numbered(verb: Verb, number: u64) -> Form
    ensures { result ≡ verb_with verb number }
{
    match verb {
        Verb::Read => Form::Reads(number),
        Verb::Write => Form::Addresses(number),
        Verb::Wait => Form::Waits(number),
        Verb::Range => Form::Starts(number),
        Verb::Cell => Form::Sets(Target::Cells, number, 0),
        Verb::Otp => Form::Sets(Target::OneTime, number, 0),
    }
}

// How many words there are with an item more, if it is one of words.
#[tactic(auto, unfolding(crate::specs::Forms::counted_to, crate::specs::Forms::stored_to))]
fn added(count: usize, item: Item, words: &mut [u16]) -> Option<usize>
    ensures value { result ≡ counted_to (length words.old) count (words_of item) }
    ensures words_after { words.new ≡ stored_to words.old count (words_of item) }
{
    let more = spelling::words_of(item)?;
    Some(words::put(words, count, more.times, more.word))
}
