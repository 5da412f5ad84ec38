// The script's lines, over input that comes in parts of any size, and their answers in a lent buffer.
#![tactic(auto)]

ghost use Rattle.std.specs.Prelude.{◌≡◌, ◌*◌, ◌≤◌, length};
ghost use Rattle.plain.specs.Lent.{lent};
ghost use Rattle.printing.specs.Put.{Put};
ghost use Rattle.playing.specs.Runs.{begun, run, run_over, told_over, closing};

use plain::Device;
use printing::Page;
use script::Line;

// How far the script is replayed: the record, the line under way and its number.
#[derive(Clone, Copy)]
pub struct Replay {
    pub device: Device,
    pub line: Line,
    pub number: u64,
}

// The same, and how many bytes of answers there are.
#[derive(Clone, Copy)]
pub struct Played {
    pub replay: Replay,
    pub end: usize,
}

// "The device is the small part, fresh."
pub fn fresh() -> Replay
    ensures { result ≡ begun }
{
    Replay {
        device: machine::fresh(),
        line: script::begin(),
        number: 1,
    }
}

// Replays the next part of the input: "lines end with LF". The buffer is lent as it is: `ReplayAnswers` of audit/specs speaks of this call.
#[tactic(auto, unfolding(crate::specs::Runs::run_over, crate::specs::Runs::told_over))]
pub fn replayed(
    mut replay: Replay,
    input: &[u8],
    cells: &mut [u16],
    otp: &mut [u16],
    words: &mut [u16],
    out: &mut [u8],
) -> Played
    requires cells_len { (length cells.old ≡ 16384) × (length otp.old ≡ 256) }
    requires input_in_bounds { 256 * length input.now ≤ length out.old }
    ensures words_after { run result.replay (lent cells.new otp.new) words.new ≡ run_over (run replay (lent cells.old otp.old) words.old) input.now }
    ensures put { Put out.old 0 out.new result.end (told_over (run replay (lent cells.old otp.old) words.old) input.now) }
{
    let mut page = Page {
        buffer: out,
        end: 0,
    };
    for &byte in input {
        if byte == b'\n' {
            let order = script::ended(replay.line, words);
            let number = replay.number;
            replay.device = acting::act(replay.device, order, cells, otp, words, number, &mut page);
            replay.line = script::begin();
            replay.number = number.wrapping_add(1);
        } else {
            replay.line = script::fed(replay.line, byte, words);
        }
    }
    Played {
        replay,
        end: page.end,
    }
}

// The end of the input ends a last line as an LF does, and the device's last line is told.
#[tactic(auto, using(printing::proofs::Puts::adds_then), unfolding(crate::specs::Runs::ended, crate::specs::Runs::answered))]
pub fn finished(
    replay: Replay,
    cells: &mut [u16],
    otp: &mut [u16],
    words: &mut [u16],
    out: &mut [u8],
) -> usize
    requires cells_len { (length cells.old ≡ 16384) × (length otp.old ≡ 256) }
    requires in_bounds { 376 ≤ length out.old }
    ensures { Put out.old 0 out.new result (closing (run replay (lent cells.old otp.old) words.old)) }
{
    let mut page = Page {
        buffer: out,
        end: 0,
    };
    let order = script::ended(replay.line, words);
    let device = acting::act(
        replay.device,
        order,
        cells,
        otp,
        words,
        replay.number,
        &mut page,
    );
    answering::last(device, cells, otp, &mut page);
    page.end
}
