// A part of a record, or the whole of it, stored among the words that a C program holds.
#![tactic(auto)]

ghost use Rattle.std.specs.Prelude.{◌≡◌, ◌+◌, ◌≤◌};
ghost use Rattle.plain.specs.declared.Operation.TheVariants.{Idle};
ghost use Rattle.layout.specs.Places.{record_words};
ghost use Rattle.layout.specs.Image.{image_of};
ghost use Rattle.layout.specs.Stored.{with_meter, with_command, with_blocks, with_erase, with_program, with_parts, with_operation, with_toggles, with_bits};

use blocks::Blocks;
use layout::{OperationParts, RECORD_WORDS};
use meter::Meter;
use numbers::{commands, operations};
use plain::{Command, Device, Erase, Operation, Program};
use protection::Protection;

#[tactic(auto, unfolding(layout::specs::Stored::with_meter))]
pub fn put_meter(words: &mut [u64; RECORD_WORDS], meter: Meter)
    ensures { words.new ≡ with_meter words.old meter }
{
    words[layout::CLOCK_AT] = meter.clock;
    words[layout::CHARGE_AT] = meter.charge;
}

#[tactic(auto, unfolding(layout::specs::Stored::with_command))]
pub fn put_command(words: &mut [u64; RECORD_WORDS], command: Command)
    ensures { words.new ≡ with_command words.old command }
{
    let told = commands::words_of(command);
    words[layout::COMMAND_AT] = told.number;
    words[layout::PLACE_AT] = told.place;
}

#[tactic(auto, unfolding(layout::specs::Stored::with_operation))]
pub fn put_operation(words: &mut [u64; RECORD_WORDS], operation: Operation)
    ensures { words.new ≡ with_operation words.old operation }
{
    put_parts(words, operations::parts_of(operation));
}

// The same of no operation, which a cut leaves: no match is asked for.
#[tactic(auto, unfolding(layout::specs::Stored::with_operation))]
pub fn put_idle(words: &mut [u64; RECORD_WORDS])
    ensures { words.new ≡ with_operation words.old Idle }
{
    put_parts(words, operations::idle_parts());
}

fn put_parts(words: &mut [u64; RECORD_WORDS], told: OperationParts)
    ensures { words.new ≡ with_parts words.old told }
{
    put_erase(words, told.erase);
    put_program(words, told.program);
    words[layout::OPERATION_AT] = told.number;
    words[layout::RECOVERY_AT] = told.recovery;
    words[layout::ENTERED_AT] = told.entered as u64;
}

#[tactic(auto, unfolding(layout::specs::Stored::with_erase))]
fn put_erase(words: &mut [u64; RECORD_WORDS], erase: Erase)
    ensures { words.new ≡ with_erase words.old erase }
{
    put_blocks(words, layout::LIST_AT, erase.list);
    words[layout::HAND_AT] = erase.hand as u64;
    words[layout::ERASE_LEFT_AT] = erase.left;
    words[layout::TOGGLES_AT] = toggles::word_of(erase);
}

#[tactic(auto, unfolding(layout::specs::Stored::with_program))]
fn put_program(words: &mut [u64; RECORD_WORDS], program: Program)
    ensures { words.new ≡ with_program words.old program }
{
    words[layout::ADDRESS_AT] = program.writes.at as u64;
    words[layout::DATA_AT] = program.writes.word as u64;
    words[layout::PROGRAM_LEFT_AT] = program.left;
    words[layout::TOGGLE_AT] = program.dq6 as u64;
}

// What a read changes: the toggles of the operation, where they stand.
#[tactic(auto, unfolding(layout::specs::Stored::with_toggles))]
pub fn put_toggles(words: &mut [u64; RECORD_WORDS], operation: Operation)
    ensures { words.new ≡ with_toggles words.old operation }
{
    words[layout::TOGGLES_AT] = toggles::of_erase(operation);
    words[layout::TOGGLE_AT] = toggles::of_program(operation);
}

#[tactic(auto, unfolding(layout::specs::Stored::with_bits))]
pub fn put_bits(words: &mut [u64; RECORD_WORDS], bits: Protection)
    ensures { words.new ≡ with_bits words.old bits }
{
    put_blocks(words, layout::DYB_AT, bits.dyb);
    put_blocks(words, layout::PPB_AT, bits.ppb);
    words[layout::LOCK_AT] = bits.lock as u64;
    words[layout::SEALED_AT] = bits.sealed as u64;
}

// A set of blocks, in five words.
#[tactic(auto, unfolding(layout::specs::Stored::with_blocks))]
fn put_blocks(words: &mut [u64; RECORD_WORDS], from: usize, set: Blocks)
    requires { from + 5 ≤ record_words }
    ensures { words.new ≡ with_blocks words.old from set }
{
    words[from] = set.w0;
    words[from + 1] = set.w1;
    words[from + 2] = set.w2;
    words[from + 3] = set.w3;
    words[from + 4] = set.w4;
}

// The whole record, over any words.
#[tactic(auto, unfolding(layout::specs::Stored::with_record), using(layout::proofs::Stored::stored))]
pub fn put(words: &mut [u64; RECORD_WORDS], device: Device)
    ensures { words.new ≡ image_of device }
{
    put_meter(words, device.meter);
    put_command(words, device.command);
    put_operation(words, device.operation);
    put_bits(words, device.bits);
    words[layout::LAYOUT_AT] = layout::LAYOUT;
}
