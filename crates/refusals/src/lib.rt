// The names of the answers (document 01, "Refusals by number").
#![tactic(auto)]

ghost use Rattle.std.specs.Prelude.{◌≡◌, ◌≤◌, length};
ghost use Rattle.refusals.specs.Names.{name as Names·name};

use plain::Refusal;

#[tactic(auto, unfolding(crate::specs::Names::name))]
pub fn name(refusal: Refusal) -> &'static [u8]
    ensures value { result.now ≡ Names·name refusal }
    ensures upper_bound { length result.now ≤ 9 }
{
    match refusal {
        Refusal::Done => b"DONE",
        Refusal::State => b"STATE",
        Refusal::Cells => b"CELLS",
        Refusal::Address => b"ADDRESS",
        Refusal::Clock => b"CLOCK",
        Refusal::Debris => b"DEBRIS",
        Refusal::Busy => b"BUSY",
        Refusal::Sequence => b"SEQUENCE",
        Refusal::Bank => b"BANK",
        Refusal::Protected => b"PROTECTED",
        Refusal::Suspended => b"SUSPENDED",
        Refusal::Locked => b"LOCKED",
        Refusal::OtpLocked => b"OTPLOCKED",
        Refusal::Raise => b"RAISE",
    }
}
