// What C asks of an address of a part, by the part's number.
ghost use Rattle.std.specs.Prelude.{◌≡◌};
ghost use Rattle.lookups.specs.Addresses.{face_block_of, face_bank_of};

#[unsafe(no_mangle)]
pub extern "C" fn k5l_block_of(part: u64, address: usize) -> u64
    ensures { result ≡ face_block_of part address }
{
    emulator::addresses::k5l_block_of(part, address)
}

#[unsafe(no_mangle)]
pub extern "C" fn k5l_bank_of(part: u64, address: usize) -> u64
    ensures { result ≡ face_bank_of part address }
{
    emulator::addresses::k5l_bank_of(part, address)
}
