// A fresh device: the first idle one.
ghost use Rattle.std.specs.Prelude.{◌≡◌};
ghost use Rattle.plain.specs.Refusals.{number};
ghost use Rattle.face.specs.Face.{refusal_of, fresh_refusal, fresh_image};

use plain::Refusal;

pub fn make(words: &mut [u64]) -> Result<(), Refusal>
    ensures refusal { number (refusal_of result) ≡ fresh_refusal words.old }
    ensures words_after { words.new ≡ fresh_image words.old }
{
    if words.len() != layout::RECORD_WORDS {
        return Err(Refusal::State);
    }
    storing::put(words.as_mut_array().unwrap(), soundness::fresh());
    Ok(())
}
