// The events on the small part that are told by more lines than one, each done and told: put on a page, behind what is there.
#![tactic(auto)]

ghost use Rattle.std.specs.Prelude.{◌≡◌};
ghost use Rattle.language.specs.Language.{cut as Line·cut, range as Line·range};
ghost use Rattle.plain.specs.Lent.{lent};
ghost use Rattle.printing.specs.Page.{HasRoom, Adds};
ghost use Rattle.deeds.specs.Deeds.{does};
ghost use Rattle.deeds.specs.Tells.{tells};

use geometry::Part;
use plain::{Device, Refusal};
use printing::Page;

// "After an accepted cut comes a line for each exception that it made."
#[tactic(auto, unfolding(deeds::specs::Deeds::does, deeds::specs::Tells::tells))]
pub fn cut(
    device: Device,
    cells: &mut [u16],
    otp: &mut [u16],
    debris: &[u16],
    line: u64,
    page: &mut Page,
) -> Device
    requires { HasRoom page.old 246 }
    ensures value { result ≡ (does (Line·cut debris.now) device (lent cells.old otp.old)).device }
    ensures cells_after { cells.new ≡ (does (Line·cut debris.now) device (lent cells.old otp.old)).lent.cells }
    ensures otp_after { otp.new ≡ (does (Line·cut debris.now) device (lent cells.old otp.old)).lent.otp }
    ensures told { Adds page.old page.new (tells (Line·cut debris.now) line device (lent cells.old otp.old)) 246 }
{
    let part = Part::small();
    let exposed = machine::exposed(part, device);
    let before = exceptions::word_at(cells, otp, exposed.word);
    let answer = machine::cut(part, device, cells, otp, debris);
    let left = answering::answered(answer, line, page);
    if answer.refusal != Refusal::Done {
        return left;
    }
    let after = exceptions::word_at(cells, otp, exposed.word);
    exceptions::block(page, line, exposed.block);
    exceptions::word(page, line, exposed.word, before, after);
    left
}

// "The word of a range is 0000; after DONE a line tells what it handed back."
#[tactic(auto, unfolding(deeds::specs::Deeds::does, deeds::specs::Tells::tells))]
pub fn range<'a>(
    device: Device,
    cells: &'a [u16],
    otp: &'a [u16],
    first: usize,
    count: usize,
    line: u64,
    page: &mut Page,
) -> Device
    requires { HasRoom page.old 209 }
    ensures value { result ≡ (does (Line·range first count) device (lent cells.now otp.now)).device }
    ensures told { Adds page.old page.new (tells (Line·range first count) line device (lent cells.now otp.now)) 209 }
{
    let part = Part::small();
    let refusal = machine::range_refusal(part, device, cells, otp, first, count);
    let left = answering::answered(answers::refused(refusal, device), line, page);
    if refusal != Refusal::Done {
        return left;
    }
    let words = machine::range(part, device, cells, otp, first, count);
    let array = machine::range_array(device, first);
    telling::range(page, line, array, first, count, sums::sums_of(words));
    left
}
