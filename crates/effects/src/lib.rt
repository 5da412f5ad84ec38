// What an event does, stored among the words that a C program holds: what changes of the record, and nothing else.
#![tactic(auto)]

ghost use Rattle.std.specs.Prelude.{◌≡◌, true};
ghost use Rattle.plain.specs.Commands.{effected};
ghost use Rattle.protection.specs.Protection.{after_cut};
ghost use Rattle.plain.specs.declared.Command.TheVariants.{Ground};
ghost use Rattle.plain.specs.declared.Operation.TheVariants.{Idle};
ghost use Rattle.plain.specs.Record.{device};
ghost use Rattle.layout.specs.Image.{well_formed, device_of, image_of};
ghost use Rattle.face.specs.Face.{refusal_of};

use layout::RECORD_WORDS;
use moments::Moved;
use plain::{Command, Effect, Refusal};
use protection::Protection;

// The effect of a write, and what the write is answered.
#[tactic(auto, unfolding(plain::specs::Commands::effected), using(layout::proofs::Canonical::canonical, layout::proofs::Stored::stored_command, layout::proofs::Stored::stored_started, layout::proofs::Stored::stored_protected))]
pub fn put_effect(words: &mut [u64; RECORD_WORDS], effect: Effect) -> Result<(), Refusal>
    requires { well_formed words.old ≡ true }
    ensures refusal { refusal_of result ≡ (effected (device_of words.old) effect).refusal }
    ensures words_after { words.new ≡ image_of (effected (device_of words.old) effect).device }
{
    match effect {
        Effect::Goes(command) => {
            storing::put_command(words, command);
            Ok(())
        }
        Effect::Starts(operation) => {
            storing::put_command(words, Command::Ground);
            storing::put_operation(words, operation);
            Ok(())
        }
        Effect::Protects(bits) => {
            storing::put_command(words, Command::Ground);
            storing::put_bits(words, bits);
            Ok(())
        }
        Effect::Falls(refusal) => {
            storing::put_command(words, Command::Ground);
            Err(refusal)
        }
        Effect::Stays(refusal) => Err(refusal),
        Effect::Drops => {
            storing::put_command(words, Command::Ground);
            storing::put_idle(words);
            Err(Refusal::Sequence)
        }
    }
}

// What a wait moves.
#[tactic(auto, using(layout::proofs::Stored::stored_passed))]
pub fn put_moved(words: &mut [u64; RECORD_WORDS], moved: Moved)
    requires { well_formed words.old ≡ true }
    ensures { words.new ≡ image_of (device moved.meter (device_of words.old).command moved.operation (device_of words.old).bits) }
{
    storing::put_meter(words, moved.meter);
    storing::put_operation(words, moved.operation);
}

// What a cut leaves, of a device with these protection bits.
#[tactic(auto, using(layout::proofs::Stored::stored_cut))]
pub fn put_cut(words: &mut [u64; RECORD_WORDS], bits: Protection)
    requires { well_formed words.old ≡ true }
    ensures { words.new ≡ image_of (device (device_of words.old).meter Ground Idle (after_cut bits)) }
{
    storing::put_command(words, Command::Ground);
    storing::put_idle(words);
    storing::put_bits(words, bits.after_cut());
}
