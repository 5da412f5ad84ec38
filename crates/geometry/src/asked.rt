// What a program in C asks of an address, by plain numbers: any 64-bit number may be asked.
// Six functions by name, not three that take the part: docs/DECISIONS.md ("Forms by place") and the definitions of `audit` name each.
ghost use Rattle.std.specs.Prelude.{◌≡◌};
ghost use Rattle.geometry.specs.declared.Part.TheVariants.{Small, Full};
ghost use Rattle.geometry.specs.Asked.{refusal_asked, block_asked, bank_asked};

use crate::Part;

pub fn k5l_small_refusal(address: usize) -> usize
    ensures { result ≡ refusal_asked Small address }
{
    refusal_asked(Part::small(), address)
}

pub fn k5l_small_block(address: usize) -> usize
    ensures { result ≡ block_asked Small address }
{
    block_asked(Part::small(), address)
}

pub fn k5l_small_bank(address: usize) -> usize
    ensures { result ≡ bank_asked Small address }
{
    bank_asked(Part::small(), address)
}

pub fn k5l_full_refusal(address: usize) -> usize
    ensures { result ≡ refusal_asked Full address }
{
    refusal_asked(Part::full(), address)
}

pub fn k5l_full_block(address: usize) -> usize
    ensures { result ≡ block_asked Full address }
{
    block_asked(Part::full(), address)
}

pub fn k5l_full_bank(address: usize) -> usize
    ensures { result ≡ bank_asked Full address }
{
    bank_asked(Part::full(), address)
}

#[tactic(auto, unfolding(crate::specs::Asked::refusal_asked))]
fn refusal_asked(part: Part, address: usize) -> usize
    ensures { result ≡ refusal_asked part address }
{
    if address < part.words() {
        return 0;
    }
    3
}

#[tactic(auto, unfolding(crate::specs::Asked::block_asked))]
fn block_asked(part: Part, address: usize) -> usize
    ensures { result ≡ block_asked part address }
{
    if address < part.words() {
        return part.block_of(address);
    }
    0
}

#[tactic(auto, unfolding(crate::specs::Asked::bank_asked))]
fn bank_asked(part: Part, address: usize) -> usize
    ensures { result ≡ bank_asked part address }
{
    if address < part.words() {
        return part.bank_of(address);
    }
    0
}
