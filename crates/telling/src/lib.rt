// The lines of answers: each function puts its line on a page, behind what is there.
#![tactic(auto)]

ghost use Rattle.std.specs.Prelude.{◌≡◌, ◌≤◌, length};
ghost use Rattle.printing.specs.Page.{HasRoom, Adds};
ghost use Rattle.telling.specs.Lines.{event_line, malformed_line, block_line, word_name, word_line, array_name, two_sums, range_line, end_line};

use meter::Meter;
use plain::{Array, Refusal};
use printing::Page;
use sums::Sums;

#[tactic(auto, unfolding(crate::specs::Lines::event_line))]
pub fn event(page: &mut Page, line: u64, refusal: Refusal, word: u16, meter: Meter)
    requires { HasRoom page.old 99 }
    ensures { Adds page.old page.new (event_line line refusal word meter.clock meter.charge) 99 }
{
    let Meter { clock, charge } = meter;
    page.decimal(line);
    page.number(answers::number_of(refusal));
    page.item(refusals::name(refusal));
    page.word(word);
    page.number(clock);
    page.number(charge);
    page.bytes(b"\n");
}

#[tactic(auto, unfolding(crate::specs::Lines::malformed_line))]
pub fn malformed(page: &mut Page, line: u64)
    requires { HasRoom page.old 31 }
    ensures { Adds page.old page.new (malformed_line line) 31 }
{
    page.decimal(line);
    page.bytes(b" malformed\n");
}

#[tactic(auto, unfolding(crate::specs::Lines::block_line))]
pub fn block(page: &mut Page, line: u64, block: usize, first: usize, last: usize)
    requires { HasRoom page.old 90 }
    ensures { Adds page.old page.new (block_line line block first last) 90 }
{
    page.decimal(line);
    page.bytes(b" block");
    page.number(block as u64);
    page.number(first as u64);
    page.number(last as u64);
    page.bytes(b"\n");
}

// A word that a cut exposed.
#[tactic(auto, unfolding(crate::specs::Lines::word_line))]
pub fn word(page: &mut Page, line: u64, array: Array, address: usize, before: u16, after: u16)
    requires { HasRoom page.old 57 }
    ensures { Adds page.old page.new (word_line line array address before after) 57 }
{
    page.decimal(line);
    page.item(word_name(array));
    page.number(address as u64);
    page.word(before);
    page.word(after);
    page.bytes(b"\n");
}

// `sums` are those over the range's words.
#[tactic(auto, unfolding(crate::specs::Lines::range_line))]
pub fn range(page: &mut Page, line: u64, array: Array, first: usize, count: usize, sums: Sums)
    requires { HasRoom page.old 110 }
    ensures { Adds page.old page.new (range_line line array first count sums.first sums.second) 110 }
{
    page.decimal(line);
    page.item(array_name(array));
    page.number(first as u64);
    page.number(count as u64);
    two_sums(page, sums);
    page.bytes(b"\n");
}

// `cells` are the sums over the cells, `otp` those over the one-time words.
#[tactic(auto, unfolding(crate::specs::Lines::end_line))]
pub fn end(page: &mut Page, meter: Meter, cells: Sums, otp: Sums)
    requires { HasRoom page.old 130 }
    ensures { Adds page.old page.new (end_line meter.clock meter.charge cells.first cells.second otp.first otp.second) 130 }
{
    page.bytes(b"end");
    page.number(meter.clock);
    page.number(meter.charge);
    two_sums(page, cells);
    two_sums(page, otp);
    page.bytes(b"\n");
}

// What an exposed word of the array is called.
fn word_name(array: Array) -> &'static [u8]
    ensures value { result.now ≡ word_name array }
    ensures upper_bound { length result.now ≤ 4 }
{
    match array {
        Array::Main => b"word",
        Array::OneTime => b"otp",
    }
}

// What the array is called as that of a range: the paper has two names for the cells, so this is not the one above.
fn array_name(array: Array) -> &'static [u8]
    ensures value { result.now ≡ array_name array }
    ensures upper_bound { length result.now ≤ 4 }
{
    match array {
        Array::Main => b"main",
        Array::OneTime => b"otp",
    }
}

fn two_sums(page: &mut Page, sums: Sums)
    requires { HasRoom page.old 42 }
    ensures { Adds page.old page.new (two_sums sums.first sums.second) 42 }
{
    page.number(sums.first);
    page.number(sums.second);
}
