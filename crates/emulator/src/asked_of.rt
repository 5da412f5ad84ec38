// What C asks of a record besides its four events, and of the blocks of a part.
ghost use Rattle.std.specs.Prelude.{◌≡◌};
ghost use Rattle.face.specs.Face.{stands_sound, face_clock, face_charge, face_first_word, face_block_words};
ghost use Rattle.asked.specs.Asked.{face_exposed_block, face_exposed_word, face_exposed_array, face_reads_cells};

pub fn k5l_sound(part: u64, words: &[u64]) -> bool
    ensures { result ≡ stands_sound part words.now }
{
    asked::is_sound(part, words)
}

pub fn k5l_exposed_block(part: u64, words: &[u64]) -> u64
    ensures { result ≡ face_exposed_block part words.now }
{
    calls::number_or_none(asked::exposed_block(part, words))
}

pub fn k5l_exposed_word(part: u64, words: &[u64]) -> u64
    ensures { result ≡ face_exposed_word part words.now }
{
    calls::number_or_none(asked::exposed_word(part, words))
}

pub fn k5l_exposed_array(part: u64, words: &[u64]) -> u64
    ensures { result ≡ face_exposed_array part words.now }
{
    calls::number_or_none(asked::exposed_array(part, words))
}

pub fn k5l_reads_cells(part: u64, words: &[u64], bank: usize) -> bool
    ensures { result ≡ face_reads_cells part words.now bank }
{
    asked::reads_cells(part, words, bank)
}

pub fn k5l_clock(part: u64, words: &[u64]) -> u64
    ensures { result ≡ face_clock part words.now }
{
    calls::number_or_none(asked::clock(part, words))
}

pub fn k5l_charge(part: u64, words: &[u64]) -> u64
    ensures { result ≡ face_charge part words.now }
{
    calls::number_or_none(asked::charge(part, words))
}

pub fn k5l_first_word(part: u64, block: usize) -> usize
    ensures { result ≡ face_first_word part block }
{
    lookups::first_word(part, block)
}

pub fn k5l_block_words(part: u64, block: usize) -> usize
    ensures { result ≡ face_block_words part block }
{
    lookups::block_words(part, block)
}
