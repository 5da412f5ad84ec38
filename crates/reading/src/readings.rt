// Identity reading and 58H reading (document 01, "Command cycles"), and that of the customer's lock (document 02, request 4).
ghost use Rattle.std.specs.Prelude.{◌≡◌};
ghost use Rattle.plain.specs.Status.{given_at, identity_word, dyb_word, given_word, reading_on, reading_word};

use geometry::Part;
use plain::{Command, Reading};
use protection::Protection;
use status::shown;

// Does a reading answer at the address?
#[tactic(auto, unfolding(plain::specs::Status::reading_on))]
pub fn reading_on(part: Part, command: Command, address: usize) -> bool
    ensures { result ≡ reading_on part command address }
{
    match command {
        Command::Ground | Command::Entering(_) => false,
        Command::Reads(reading) => given_at(part, reading, address),
    }
}

// "90H: identity reading in the bank of this third address"; "58H: each read"
#[tactic(auto, unfolding(plain::specs::Status::given_at))]
fn given_at(part: Part, reading: Reading, address: usize) -> bool
    ensures { result ≡ given_at part reading address }
{
    match reading {
        Reading::Identity(bank) => part.bank_of(address) == bank,
        Reading::Dybs | Reading::OtpLock => true,
    }
}

// The word that it gives.
#[tactic(auto, unfolding(plain::specs::Status::reading_word))]
pub fn reading_word(part: Part, bits: Protection, command: Command, address: usize) -> u16
    ensures { result ≡ reading_word part bits command address }
{
    match command {
        Command::Ground | Command::Entering(_) => 0,
        Command::Reads(reading) => given_word(part, bits, reading, address),
    }
}

#[tactic(auto, unfolding(plain::specs::Status::given_word))]
fn given_word(part: Part, bits: Protection, reading: Reading, address: usize) -> u16
    ensures { result ≡ given_word part bits reading address }
{
    match reading {
        Reading::Identity(_) => identity_word(part, bits, address),
        Reading::Dybs => dyb_word(part, bits, address),
        Reading::OtpLock => shown(bits.sealed, 1),
    }
}

// "By the low 8 address bits: 00H gives 00ECH, 02H gives the block's PPB, all others 0"
fn identity_word(part: Part, bits: Protection, address: usize) -> u16
    ensures { result ≡ identity_word part bits address }
{
    match address % 256 {
        0x00 => 0x00ec,
        0x02 => shown(bits.ppb.has(part.block_of(address)), 1),
        _ => 0,
    }
}

// "each read gives the block's DYB in bit 0 and the PPB lock bit in bit 1"
fn dyb_word(part: Part, bits: Protection, address: usize) -> u16
    ensures { result ≡ dyb_word part bits address }
{
    shown(bits.dyb.has(part.block_of(address)), 1) + shown(bits.lock, 2)
}
