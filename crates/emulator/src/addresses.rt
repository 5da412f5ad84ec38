// What C asks of an address of a part, by the part's number.
ghost use Rattle.std.specs.Prelude.{◌≡◌};
ghost use Rattle.lookups.specs.Addresses.{face_block_of, face_bank_of};

pub fn k5l_block_of(part: u64, address: usize) -> u64
    ensures { result ≡ face_block_of part address }
{
    calls::number_or_none(lookups::block_of(part, address))
}

pub fn k5l_bank_of(part: u64, address: usize) -> u64
    ensures { result ≡ face_bank_of part address }
{
    calls::number_or_none(lookups::bank_of(part, address))
}
