// The words of a `cut`, a `cell` or an `otp`, in the room that the caller lends.
ghost use Rattle.std.specs.Prelude.{◌≡◌, length};
ghost use Rattle.forms.specs.Forms.{put_count, put_words};

// Puts a word `times` times behind the first `count`, and gives how many there are then; one more than the room has stands for
// every greater number, as `put_count` says, and words that it has no room for are dropped.
#[tactic(auto, unfolding(crate::specs::Forms::put_count, crate::specs::Forms::put_words))]
pub fn put(words: &mut [u16], count: usize, times: u64, word: u16) -> usize
    ensures value { result ≡ put_count (length words.old) count times }
    ensures words_after { words.new ≡ put_words words.old count times word }
{
    let room = words.len();
    match count.checked_add(times as usize) {
        Some(end) if end <= room => {
            words[count..end].fill(word);
            end
        }
        _ => {
            words[count.min(room)..].fill(word);
            room + 1
        }
    }
}
