// A status word from its bits.
ghost use Rattle.std.specs.Prelude.{◌≡◌, ◌≤◌};
ghost use Rattle.std.specs.Prelude.{if◌then◌else◌};
ghost use Rattle.plain.specs.Status.{status_word};

// "All other bits are 0."
pub fn status_word(seven: bool, six: bool, three: bool, two: bool) -> u16
    ensures { result ≡ status_word seven six three two }
{
    shown(seven, 0x80) + (shown(six, 0x40) + (shown(three, 0x08) + shown(two, 0x04)))
}

// A bit of a word.
pub fn shown(on: bool, bit: u16) -> u16
    ensures value { result ≡ (if on then bit else 0) }
    ensures upper_bound { result ≤ bit }
{
    if on {
        return bit;
    }
    0
}
