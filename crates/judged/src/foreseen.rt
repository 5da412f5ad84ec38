// What is foreseen of a device if nobody writes, and of a cut that might come: told of a sound record alone.
ghost use Rattle.std.specs.Prelude.{◌≡◌};
ghost use Rattle.judged.specs.Foreseen.{end_now, change_now, debris_now};

use geometry::Part;
use plain::Device;
use remaining::Change;

// How many microseconds until nothing runs any more.
pub fn until_end(part: Part, device: Device) -> Option<u64>
    ensures { result ≡ end_now part device }
{
    if !soundness::is_sound(part, device) {
        return None;
    }
    Some(remaining::until_end(part, device.operation))
}

// What the device does next by itself: when, and at which word of which array or at which block.
#[tactic(auto, unfolding(crate::specs::Foreseen::change_now))]
pub fn until_change(part: Part, device: Device) -> Change
    ensures { result ≡ change_now part device }
{
    if !soundness::is_sound(part, device) {
        return Change::Never;
    }
    remaining::change_of(operations::running_of(device.operation))
}

// How many words of debris a cut would need if it came now.
#[tactic(auto, unfolding(crate::specs::Foreseen::debris_now))]
pub fn debris_needed(part: Part, device: Device) -> Option<u64>
    ensures { result ≡ debris_now part device }
{
    if !soundness::is_sound(part, device) {
        return None;
    }
    Some(cutting::debris_needed(part, device.operation) as u64)
}
