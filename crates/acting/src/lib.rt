// What a line asks for, done on the small part and told: its lines are put on a page, behind what is there.
#![tactic(auto)]

ghost use Rattle.std.specs.Prelude.{◌≡◌, length};
ghost use Rattle.plain.specs.Lent.{lent};
ghost use Rattle.plain.specs.Record.{fresh};
ghost use Rattle.printing.specs.Page.{HasRoom, Adds};
ghost use Rattle.language.specs.Orders.{Within, seen};
ghost use Rattle.deeds.specs.Deeds.{blank, does};
ghost use Rattle.deeds.specs.Tells.{last_line, tells};

use language::Order;
use plain::Device;
use printing::Page;

#[tactic(auto, using(crate::proofs::Taken::litters), unfolding(deeds::specs::Deeds::does, deeds::specs::Tells::tells))]
pub fn act(
    device: Device,
    order: Order,
    cells: &mut [u16],
    otp: &mut [u16],
    words: &[u16],
    line: u64,
    page: &mut Page,
) -> Device
    requires cells_len { (length cells.old ≡ 16384) × (length otp.old ≡ 256) × Within order (length words.now) }
    requires room { HasRoom page.old 246 }
    ensures value { result ≡ (does (seen order words.now) device (lent cells.old otp.old)).device }
    ensures cells_after { cells.new ≡ (does (seen order words.now) device (lent cells.old otp.old)).lent.cells }
    ensures otp_after { otp.new ≡ (does (seen order words.now) device (lent cells.old otp.old)).lent.otp }
    ensures told { Adds page.old page.new (tells (seen order words.now) line device (lent cells.old otp.old)) 246 }
{
    match order {
        Order::Nothing => device,
        Order::Malformed => {
            telling::malformed(page, line);
            device
        }
        Order::Read(a) => answering::read(device, cells, otp, a, line, page),
        Order::Write(a, w) => answering::write(device, cells, otp, a, w, line, page),
        Order::Wait(d) => answering::wait(device, cells, otp, d, line, page),
        Order::Cut(n) => reporting::cut(device, cells, otp, &words[..n], line, page),
        Order::Range(a, n) => reporting::range(device, cells, otp, a, n, line, page),
        Order::Cell(a, n) => {
            cells::litter(cells, a, n, words);
            device
        }
        Order::Otp(a, n) => {
            cells::litter(otp, a, n, words);
            device
        }
        Order::Fresh => renewed(device, cells, otp, page),
    }
}

// "ends this device (its `end` line is written) and starts a fresh one, all cells and one-time words FFFFH"
fn renewed(device: Device, cells: &mut [u16], otp: &mut [u16], page: &mut Page) -> Device
    requires { HasRoom page.old 130 }
    ensures value { result ≡ fresh }
    ensures cells_after { cells.new ≡ blank cells.old }
    ensures otp_after { otp.new ≡ blank otp.old }
    ensures told { Adds page.old page.new (last_line device (lent cells.old otp.old)) 130 }
{
    answering::last(device, cells, otp, page);
    let size = cells.len();
    cells::erase(cells, 0, size);
    let otp_size = otp.len();
    cells::erase(otp, 0, otp_size);
    machine::fresh()
}
