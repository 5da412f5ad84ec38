// Writes while a block erase runs: in its window (document 01, "Time, charge and the cells"), and past it.
#![tactic(auto)]

ghost use Rattle.std.specs.Prelude.{◌≡◌};
ghost use Rattle.plain.specs.Commands.{add_block, in_window, in_erase};

use geometry::Part;
use plain::{Effect, Erase, Inside, Operation, Recovery, Refusal, SuspendedErase, figures};
use protection::Protection;

// 30H adds a block; "B0H suspends; any other write is SEQUENCE".
#[tactic(auto, unfolding(plain::specs::Commands::in_window))]
pub fn in_window(part: Part, bits: Protection, erase: Erase, address: usize, word: u16) -> Effect
    ensures { result ≡ in_window part bits erase address word }
{
    match word % 256 {
        0x30 => add_block(part, bits, erase, address),
        // "Suspending in the window ends the window": the block in hand has its full time yet.
        0xb0 => Effect::Starts(Operation::EraseSuspended(SuspendedErase {
            erase: Erase {
                left: figures::erase_time(part),
                ..erase
            },
            inside: Inside::Nothing,
        })),
        _ => Effect::Drops,
    }
}

// "30H in the same bank adds a block" and starts the window again; BANK is judged before PROTECTED.
#[tactic(auto, unfolding(plain::specs::Commands::add_block))]
fn add_block(part: Part, bits: Protection, erase: Erase, address: usize) -> Effect
    ensures { result ≡ add_block part bits erase address }
{
    if part.bank_of(address) != part.bank_of_block(erase.hand) {
        return Effect::Stays(Refusal::Bank);
    }
    let block = part.block_of(address);
    if bits.is_protected(block) {
        return Effect::Stays(Refusal::Protected);
    }
    Effect::Starts(Operation::Window(Erase {
        list: erase.list.with(block),
        // in the window the block in hand is the lowest listed
        hand: erase.hand.min(block),
        left: figures::window_time(part),
        ..erase
    }))
}

// "B0H during a running block erase starts 20 µs in which the block makes no progress"; any other write is BUSY.
pub fn in_erase(part: Part, erase: Erase, word: u16) -> Effect
    ensures { result ≡ in_erase part erase word }
{
    if word % 256 == 0xb0 {
        return Effect::Starts(Operation::Recovering(Recovery {
            erase,
            left: figures::recovery_time(part),
        }));
    }
    Effect::Stays(Refusal::Busy)
}
