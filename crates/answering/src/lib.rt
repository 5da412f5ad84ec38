// The events on the small part that are told by one line, each done and told, and the last line: put on a page, behind what is there.
#![tactic(auto)]

ghost use Rattle.std.specs.Prelude.{◌≡◌};
ghost use Rattle.language.specs.Language.{read as Line·read, write as Line·write, wait as Line·wait};
ghost use Rattle.plain.specs.Lent.{lent};
ghost use Rattle.printing.specs.Page.{HasRoom, Adds};
ghost use Rattle.deeds.specs.Deeds.{does};
ghost use Rattle.deeds.specs.Tells.{tells, answer_line, last_line};

use geometry::Part;
use plain::{Answer, Device};
use printing::Page;

#[tactic(auto, unfolding(deeds::specs::Deeds::does, deeds::specs::Tells::tells))]
pub fn read(
    device: Device,
    cells: &[u16],
    otp: &[u16],
    address: usize,
    line: u64,
    page: &mut Page,
) -> Device
    requires { HasRoom page.old 99 }
    ensures value { result ≡ (does (Line·read address) device (lent cells.now otp.now)).device }
    ensures told { Adds page.old page.new (tells (Line·read address) line device (lent cells.now otp.now)) 99 }
{
    let part = Part::small();
    let answer = machine::read(part, device, cells, otp, address);
    answered(answer, line, page)
}

#[tactic(auto, unfolding(deeds::specs::Deeds::does, deeds::specs::Tells::tells))]
pub fn write(
    device: Device,
    cells: &[u16],
    otp: &[u16],
    address: usize,
    word: u16,
    line: u64,
    page: &mut Page,
) -> Device
    requires { HasRoom page.old 99 }
    ensures value { result ≡ (does (Line·write address word) device (lent cells.now otp.now)).device }
    ensures told { Adds page.old page.new (tells (Line·write address word) line device (lent cells.now otp.now)) 99 }
{
    let part = Part::small();
    let answer = machine::write(part, device, cells, otp, address, word);
    answered(answer, line, page)
}

#[tactic(auto, unfolding(deeds::specs::Deeds::does, deeds::specs::Tells::tells))]
pub fn wait(
    device: Device,
    cells: &mut [u16],
    otp: &mut [u16],
    microseconds: u64,
    line: u64,
    page: &mut Page,
) -> Device
    requires { HasRoom page.old 99 }
    ensures value { result ≡ (does (Line·wait microseconds) device (lent cells.old otp.old)).device }
    ensures cells_after { cells.new ≡ (does (Line·wait microseconds) device (lent cells.old otp.old)).lent.cells }
    ensures otp_after { otp.new ≡ (does (Line·wait microseconds) device (lent cells.old otp.old)).lent.otp }
    ensures told { Adds page.old page.new (tells (Line·wait microseconds) line device (lent cells.old otp.old)) 99 }
{
    let part = Part::small();
    let answer = machine::wait(part, device, cells, otp, microseconds);
    answered(answer, line, page)
}

// "Each event is answered by a line." Hands back the record afterwards.
pub fn answered(answer: Answer, line: u64, page: &mut Page) -> Device
    requires { HasRoom page.old 99 }
    ensures value { result ≡ answer.device }
    ensures told { Adds page.old page.new (answer_line line answer) 99 }
{
    let device = answer.device;
    telling::event(page, line, answer.refusal, answer.word, device.meter);
    device
}

// "At the end, `end CLOCK CHARGE S1 S2 O1 O2`."
pub fn last(device: Device, cells: &[u16], otp: &[u16], page: &mut Page)
    requires { HasRoom page.old 130 }
    ensures { Adds page.old page.new (last_line device (lent cells.now otp.now)) 130 }
{
    telling::end(page, device.meter, sums::sums_of(cells), sums::sums_of(otp));
}
