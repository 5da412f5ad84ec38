// The figures of document 01, by part: microseconds, and picocoulombs a microsecond. All code takes them from here. A function for each, as
// each has a definition and a line of the paper of its own; one for all, told which, would be no plainer.
ghost use Rattle.std.specs.Prelude.{◌≡◌};
ghost use Rattle.plain.specs.Figures.{program_time, window_time, erase_time, recovery_time, chip_time, running_current, standby_current, clock_limit};

use geometry::Part;

// "256 words in both parts"
pub const OTP_WORDS: usize = 256;

pub fn program_time(part: Part) -> u64
    ensures { result ≡ program_time part }
{
    6
}

pub fn window_time(part: Part) -> u64
    ensures { result ≡ window_time part }
{
    50
}

pub fn erase_time(part: Part) -> u64
    ensures { result ≡ erase_time part }
{
    700000
}

pub fn recovery_time(part: Part) -> u64
    ensures { result ≡ recovery_time part }
{
    20
}

pub fn chip_time(part: Part) -> u64
    ensures { result ≡ chip_time part }
{
    500000
}

pub fn running_current(part: Part) -> u64
    ensures { result ≡ running_current part }
{
    17000
}

pub fn standby_current(part: Part) -> u64
    ensures { result ≡ standby_current part }
{
    15
}

pub fn clock_limit(part: Part) -> u64
    ensures { result ≡ clock_limit part }
{
    100000000000000
}
