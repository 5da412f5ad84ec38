// The lookups of addresses alone, for a boot loader in C (include/k5l2931cam.h): each of `geometry`, with its contract. A crate is a
// library or a static library, and not both.
#![tactic(auto)]

ghost use Rattle.std.specs.Prelude.{◌≡◌};
ghost use Rattle.geometry.specs.declared.Part.TheVariants.{Small, Full};
ghost use Rattle.geometry.specs.Asked.{refusal_asked, block_asked, bank_asked};

#[unsafe(no_mangle)]
pub extern "C" fn k5l_small_refusal(address: usize) -> usize
    ensures { result ≡ refusal_asked Small address }
{
    geometry::asked::k5l_small_refusal(address)
}

#[unsafe(no_mangle)]
pub extern "C" fn k5l_small_block(address: usize) -> usize
    ensures { result ≡ block_asked Small address }
{
    geometry::asked::k5l_small_block(address)
}

#[unsafe(no_mangle)]
pub extern "C" fn k5l_small_bank(address: usize) -> usize
    ensures { result ≡ bank_asked Small address }
{
    geometry::asked::k5l_small_bank(address)
}

#[unsafe(no_mangle)]
pub extern "C" fn k5l_full_refusal(address: usize) -> usize
    ensures { result ≡ refusal_asked Full address }
{
    geometry::asked::k5l_full_refusal(address)
}

#[unsafe(no_mangle)]
pub extern "C" fn k5l_full_block(address: usize) -> usize
    ensures { result ≡ block_asked Full address }
{
    geometry::asked::k5l_full_block(address)
}

#[unsafe(no_mangle)]
pub extern "C" fn k5l_full_bank(address: usize) -> usize
    ensures { result ≡ bank_asked Full address }
{
    geometry::asked::k5l_full_bank(address)
}
