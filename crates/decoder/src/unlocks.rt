// The unlock writes, and those after 80H.
ghost use Rattle.std.specs.Prelude.{◌≡◌, if◌then◌else◌};
ghost use Rattle.plain.specs.Commands.{at_ground, or_reset};
ghost use Rattle.plain.specs.Cycles.{first_unlock, second_unlock};
ghost use Rattle.plain.specs.declared.Command.TheVariants.{Entering};
ghost use Rattle.plain.specs.declared.Effect.TheVariants.{Goes, Falls};
ghost use Rattle.plain.specs.declared.Refusal.TheVariants.{Sequence};

use cycles::{is_first_unlock, is_second_unlock, reset_or_sequence};
use plain::{Command, Cycle, Effect, Suspension};
use starting::resumes;

// 30H in suspension, or the first unlock write.
#[tactic(auto, unfolding(plain::specs::Commands::at_ground))]
pub fn at_ground(suspension: Suspension, address: usize, word: u16) -> Effect
    ensures { result ≡ at_ground suspension address word }
{
    if word % 256 == 0x30 {
        return resumes(suspension);
    }
    first_unlock(suspension, address, word, Cycle::Unlock)
}

// The first unlock write, 555H/AAH, and the cycle that it comes to.
pub fn first_unlock(suspension: Suspension, address: usize, word: u16, next: Cycle) -> Effect
    ensures { result ≡ (if first_unlock address word then Goes (Entering next) else or_reset suspension word (Falls Sequence)) }
{
    if is_first_unlock(address, word) {
        return Effect::Goes(Command::Entering(next));
    }
    reset_or_sequence(suspension, word)
}

// The second, 2AAH/55H. Not one for both: it would be told whether its write is here, a test that each caller would make.
pub fn second_unlock(suspension: Suspension, address: usize, word: u16, next: Cycle) -> Effect
    ensures { result ≡ (if second_unlock address word then Goes (Entering next) else or_reset suspension word (Falls Sequence)) }
{
    if is_second_unlock(address, word) {
        return Effect::Goes(Command::Entering(next));
    }
    reset_or_sequence(suspension, word)
}
