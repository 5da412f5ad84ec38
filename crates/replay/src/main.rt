// Replays an event script from standard input on the small part, and writes the answers to standard output.
#![tactic(auto)]

use std::io::{self, Read, Write};

// Nothing says that the input ends, and a proved loop has to: its turns are more than any run takes. A line has fewer than 256
// bytes of answers, and its end is a byte of input: so the answers to 256 bytes have room.
fn main(rt: HostRuntime) -> io::Result<()> {
    let mut memory = [0xffffu16; 16384];
    let cells: &mut [u16] = &mut memory;
    let mut one_time = [0xffffu16; 256];
    let otp: &mut [u16] = &mut one_time;
    let mut room = [0u16; 16384];
    let words: &mut [u16] = &mut room;
    let mut input = [0u8; 256];
    let mut answers = [0u8; 65536];
    let mut script = rt.stdin();
    let mut told = rt.stdout();
    let mut replay = playing::fresh();
    for _ in 0..u64::MAX {
        let count = match script.read(&mut input) {
            Ok(count) => count,
            Err(_) => {
                // No answer: a read of the script failed, and the end is not told.
                eprintln!(rt; "replay: the script could not be read to its end")?;
                return Ok(());
            }
        };
        if count == 0 {
            let end = playing::finished(replay, cells, otp, words, &mut answers);
            told.write_all(&answers[..end])?;
            return Ok(());
        }
        let played = playing::replayed(replay, &input[..count], cells, otp, words, &mut answers);
        told.write_all(&answers[..played.end])?;
        replay = played.replay;
    }
    Ok(())
}
