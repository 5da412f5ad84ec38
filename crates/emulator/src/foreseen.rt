// What C asks of what is to come if nobody writes, and of a cut that might.
ghost use Rattle.std.specs.Prelude.{◌≡◌};
ghost use Rattle.outlook.specs.Foreseen.{face_until_end, face_until_change, face_changing_block, face_changing_word, face_changing_array, face_debris_needed};

pub fn k5l_until_end(part: u64, words: &[u64]) -> u64
    ensures { result ≡ face_until_end part words.now }
{
    calls::number_or_none(outlook::until_end(part, words))
}

pub fn k5l_until_change(part: u64, words: &[u64]) -> u64
    ensures { result ≡ face_until_change part words.now }
{
    calls::number_or_none(outlook::until_change(part, words))
}

pub fn k5l_changing_block(part: u64, words: &[u64]) -> u64
    ensures { result ≡ face_changing_block part words.now }
{
    calls::number_or_none(outlook::changing_block(part, words))
}

pub fn k5l_changing_word(part: u64, words: &[u64]) -> u64
    ensures { result ≡ face_changing_word part words.now }
{
    calls::number_or_none(outlook::changing_word(part, words))
}

pub fn k5l_changing_array(part: u64, words: &[u64]) -> u64
    ensures { result ≡ face_changing_array part words.now }
{
    calls::number_or_none(outlook::changing_array(part, words))
}

pub fn k5l_debris_needed(part: u64, words: &[u64]) -> u64
    ensures { result ≡ face_debris_needed part words.now }
{
    calls::number_or_none(outlook::debris_needed(part, words))
}
