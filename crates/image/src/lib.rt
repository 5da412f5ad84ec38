// From the words that a C program holds to the record that they stand for.
#![tactic(auto)]

ghost use Rattle.std.specs.Prelude.{◌≡◌};
ghost use Rattle.plain.specs.Record.{device};
ghost use Rattle.layout.specs.Commands.{command_of};
ghost use Rattle.layout.specs.Image.{meter_of, bits_of, command_words_of, device_of};

mod parts;
mod sections;

use layout::RECORD_WORDS;
use meter::Meter;
use numbers::commands;
use numbers::operations::{erase_alone, operation_inside, program_alone, program_and_erase};
use plain::{Device, Operation};
use protection::Protection;

// Each way takes out only what its operation uses, and hands it on: an operation that several ways join in would be taken apart by bytes.
#[tactic(auto, unfolding(layout::specs::Image::device_of, layout::specs::Operations::operation_of, layout::specs::Operations::operation_outside))]
pub fn device_of(words: &[u64; RECORD_WORDS]) -> Device
    ensures { result ≡ device_of words.now }
{
    let number = words[layout::OPERATION_AT];
    if words[layout::ENTERED_AT] == 1 {
        return device_with(
            words,
            operation_inside(number, parts::program_of(words, true)),
        );
    }
    let recovery = words[layout::RECOVERY_AT];
    if recovery == 0 {
        if number < 3 {
            return device_with(
                words,
                program_alone(number, parts::program_of(words, false)),
            );
        }
        if number == 6 {
            let erase = parts::erase_of(words);
            let program = parts::program_of(words, false);
            return device_with(words, program_and_erase(erase, program));
        }
    }
    device_with(words, erase_alone(number, parts::erase_of(words), recovery))
}

// The record with that operation, and all else as the words tell it.
fn device_with(words: &[u64; RECORD_WORDS], operation: Operation) -> Device
    ensures { result ≡ device (meter_of words.now) (command_of (command_words_of words.now)) operation (bits_of words.now) }
{
    Device {
        meter: meter_of(words),
        command: commands::command_of(words[layout::COMMAND_AT], words[layout::PLACE_AT]),
        operation,
        bits: bits_of(words),
    }
}

pub fn meter_of(words: &[u64; RECORD_WORDS]) -> Meter
    ensures { result ≡ meter_of words.now }
{
    Meter {
        clock: words[layout::CLOCK_AT],
        charge: words[layout::CHARGE_AT],
    }
}

pub fn bits_of(words: &[u64; RECORD_WORDS]) -> Protection
    ensures { result ≡ bits_of words.now }
{
    Protection {
        dyb: sections::blocks_at(words, layout::DYB_AT),
        ppb: sections::blocks_at(words, layout::PPB_AT),
        lock: words[layout::LOCK_AT] == 1,
        sealed: words[layout::SEALED_AT] == 1,
    }
}
