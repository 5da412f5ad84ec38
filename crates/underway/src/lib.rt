// Is what runs, is suspended or is entered sound? One function for each kind of operation.
#![tactic(auto)]

ghost use Rattle.std.specs.Prelude.{◌≡◌};
ghost use Rattle.plain.specs.declared.Operation.TheVariants.{Window, Erasing, Recovering, EraseSuspended, ChipErasing};
ghost use Rattle.plain.specs.Sound.{time_sound, array_sound, program_sound, inside_sound, operation_sound};

mod lists;

use geometry::Part;
use plain::{
    Erase, Inside, Operation, Program, Recovery, SuspendedErase, Suspension, Written, figures,
};
use protection::Protection;

#[tactic(auto, unfolding(plain::specs::Sound::operation_sound))]
pub fn operation_sound(part: Part, bits: Protection, operation: Operation) -> bool
    ensures { result ≡ operation_sound part bits operation }
{
    match operation {
        Operation::Idle | Operation::InOneTime => true,
        Operation::Programming(program) | Operation::ProgramSuspended(program) => {
            program_sound(part, bits, Suspension::Unsuspended, program)
        }
        Operation::Window(erase) => window_sound(part, bits, erase),
        Operation::Erasing(erase) => erasing_sound(part, bits, erase),
        Operation::Recovering(recovery) => recovering_sound(part, bits, recovery),
        Operation::EraseSuspended(suspended) => suspended_sound(part, bits, suspended),
        Operation::ChipErasing(erase) => chip_erasing_sound(part, bits, erase),
        Operation::OneTimeProgramming(program) => {
            program_sound(part, bits, Suspension::Entered, program)
        }
    }
}

// "time left is from 1 to the full time"
fn time_sound(left: u64, full: u64) -> bool
    ensures { result ≡ time_sound left full }
{
    1 <= left && left <= full
}

// "addresses .. are in range; .. a program's block is unprotected"; "OTPLOCKED, in the place of PROTECTED, in soundness too"
#[tactic(auto, unfolding(plain::specs::Sound::program_sound))]
fn program_sound(part: Part, bits: Protection, suspension: Suspension, program: Program) -> bool
    ensures { result ≡ program_sound part bits suspension program }
{
    let written = program.writes;
    array_sound(suspension, written)
        && programs::lies_in(part, written)
        && time_sound(program.left, figures::program_time(part))
        && !programs::is_barred(part, bits, written)
}

// A program writes to the array that its address selects: the mode cannot have changed since its data write.
fn array_sound(suspension: Suspension, written: Written) -> bool
    ensures { result ≡ array_sound suspension written }
{
    let address = programs::first_word(written);
    programs::array_written(written) == operations::selected(suspension, address)
}

// "in the window it is the lowest; .. its own time left" is held to the window's
#[tactic(auto, unfolding(plain::specs::Sound::operation_sound, plain::specs::Sound::list_sound))]
fn window_sound(part: Part, bits: Protection, erase: Erase) -> bool
    ensures { result ≡ operation_sound part bits (Window erase) }
{
    lists::list_sound(part, bits, erase)
        && lists::lowest(erase)
        && time_sound(erase.left, figures::window_time(part))
}

// A block erase past its window. Inlined, so that no part of the record is handed over in memory.
#[inline(always)]
#[tactic(auto, unfolding(plain::specs::Sound::operation_sound))]
fn erasing_sound(part: Part, bits: Protection, erase: Erase) -> bool
    ensures { result ≡ operation_sound part bits (Erasing erase) }
{
    lists::list_sound(part, bits, erase) && time_sound(erase.left, figures::erase_time(part))
}

// "Recovery, 1 to 20 µs left, belongs to a running block erase past its window": it is sound if that erase is.
#[tactic(auto, unfolding(plain::specs::Sound::operation_sound))]
fn recovering_sound(part: Part, bits: Protection, recovery: Recovery) -> bool
    ensures { result ≡ operation_sound part bits (Recovering recovery) }
{
    erasing_sound(part, bits, recovery.erase)
        && time_sound(recovery.left, figures::recovery_time(part))
}

// A suspended erase is sound if it would be as it runs, and so is what goes on inside.
#[tactic(auto, unfolding(plain::specs::Sound::operation_sound))]
fn suspended_sound(part: Part, bits: Protection, suspended: SuspendedErase) -> bool
    ensures { result ≡ operation_sound part bits (EraseSuspended suspended) }
{
    erasing_sound(part, bits, suspended.erase)
        && inside_sound(part, bits, suspended.erase, suspended.inside)
}

// "a program's block is .. not on a suspended erase list"
#[tactic(auto, unfolding(plain::specs::Sound::inside_sound))]
fn inside_sound(part: Part, bits: Protection, erase: Erase, inside: Inside) -> bool
    ensures { result ≡ inside_sound part bits erase inside }
{
    match inside {
        Inside::Nothing => true,
        Inside::Runs(program) => {
            program_sound(part, bits, Suspension::OfErase(erase), program)
                && !erase
                    .list
                    .has(programs::block_written(part, program.writes))
        }
    }
}

// "Chip erase has no window"
#[tactic(auto, unfolding(plain::specs::Sound::operation_sound))]
fn chip_erasing_sound(part: Part, bits: Protection, erase: Erase) -> bool
    ensures { result ≡ operation_sound part bits (ChipErasing erase) }
{
    lists::chip_list_sound(part, bits, erase) && time_sound(erase.left, figures::chip_time(part))
}
