// What a suspension means for commands.
ghost use Rattle.std.specs.Prelude.{◌≡◌};
ghost use Rattle.std.specs.Prelude.{if◌then◌else◌};
ghost use Rattle.plain.specs.Commands.{is_suspended, program_is_suspended, unless};
ghost use Rattle.plain.specs.Operations.{is_entered};
ghost use Rattle.plain.specs.declared.Command.TheVariants.{Entering};
ghost use Rattle.plain.specs.declared.Cycle.TheVariants.{EraseSetup};
ghost use Rattle.plain.specs.declared.Effect.TheVariants.{Goes, Falls};
ghost use Rattle.plain.specs.declared.Refusal.TheVariants.{Sequence};

use operations::is_entered;
use plain::{Command, Cycle, Effect, Refusal, Suspension};

#[tactic(auto, unfolding(plain::specs::Commands::is_suspended))]
pub fn is_suspended(suspension: Suspension) -> bool
    ensures { result ≡ is_suspended suspension }
{
    matches!(
        suspension,
        Suspension::OfProgram(_) | Suspension::OfErase(_)
    )
}

#[tactic(auto, unfolding(plain::specs::Commands::program_is_suspended))]
pub fn program_is_suspended(suspension: Suspension) -> bool
    ensures { result ≡ program_is_suspended suspension }
{
    matches!(suspension, Suspension::OfProgram(_))
}

// "10 SUSPENDED: a command not allowed in suspension"
pub fn unless(suspended: bool, effect: Effect) -> Effect
    ensures { result ≡ unless suspended effect }
{
    if suspended {
        return Effect::Falls(Refusal::Suspended);
    }
    effect
}

// 80H: of the one-time block document 02, request 4, says "There 80H is SEQUENCE".
pub fn erase_setup(suspension: Suspension) -> Effect
    ensures { result ≡ (if is_entered suspension then Falls Sequence else Goes (Entering EraseSetup)) }
{
    if is_entered(suspension) {
        return Effect::Falls(Refusal::Sequence);
    }
    Effect::Goes(Command::Entering(Cycle::EraseSetup))
}
