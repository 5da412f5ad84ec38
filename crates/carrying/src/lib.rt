// A stored record of an older layout, carried over: the words as they were, 0 in those that it did not have, and the new number.
#![tactic(auto)]

ghost use Rattle.std.specs.Prelude.{◌≡◌};
ghost use Rattle.plain.specs.Refusals.{number};
ghost use Rattle.layout.specs.Places.{record_words};
ghost use Rattle.layout.specs.Image.{word, section};
ghost use Rattle.layout.specs.Carried.{carriable};
ghost use Rattle.face.specs.Face.{refusal_of, carried_refusal, carried_image};

use layout::RECORD_WORDS;
use plain::Refusal;

#[tactic(auto, unfolding(layout::specs::Carried::carried, layout::specs::Image::words_from))]
pub fn carry(stored: &[u64], words: &mut [u64]) -> Result<(), Refusal>
    ensures refusal { number (refusal_of result) ≡ carried_refusal stored.now words.old }
    ensures words_after { words.new ≡ carried_image stored.now words.old }
{
    if !is_carriable(stored) {
        return Err(Refusal::State);
    }
    let Some(record) = words.as_mut_array() else {
        return Err(Refusal::State);
    };
    copy(stored, record);
    record[layout::LAYOUT_AT] = layout::LAYOUT;
    Ok(())
}

// As many words as their layout has.
#[tactic(auto, unfolding(layout::specs::Carried::carriable), using(std::proofs::lemmas::Bool::Decides::nat_tests))]
fn is_carriable(stored: &[u64]) -> bool
    ensures { result ≡ carriable stored.now }
{
    match stored.len() {
        layout::RECORD_WORDS => stored[layout::LAYOUT_AT] == layout::LAYOUT,
        layout::SECOND_WORDS => stored[layout::LAYOUT_AT] == layout::SECOND_LAYOUT,
        layout::FIRST_WORDS => stored[layout::LAYOUT_AT] == layout::FIRST_LAYOUT,
        _ => false,
    }
}

// Past the end of what is stored they are 0. Place by place: the proof of a `fill` and a `copy_from_slice` of a part is longer.
fn copy(stored: &[u64], words: &mut [u64; RECORD_WORDS])
    ensures { words.new ≡ section stored.now 0 record_words }
{
    for i in 0..RECORD_WORDS {
        words[i] = word_at(stored, i);
    }
}

fn word_at(stored: &[u64], at: usize) -> u64
    ensures { result ≡ word stored.now at }
{
    stored.get(at).copied().unwrap_or(0)
}
