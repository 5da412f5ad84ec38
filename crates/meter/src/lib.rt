// Time and charge: what the device has run, and what it has drawn (document 01, "Time, charge and the cells").
#![tactic(auto)]

ghost use Rattle.std.specs.Prelude.{◌≡◌, ◌+◌, ◌<◌, ◌^◌};
ghost use Rattle.meter.specs.Meter.{metered};

#[derive(Clone, Copy)]
pub struct Meter {
    pub clock: u64, // microseconds
    pub charge: u64, // picocoulombs
}

// Adds where the meter stands.
pub fn add_to(m: &mut Meter, microseconds: u64, picocoulombs: u64)
    requires { (m.old.clock + microseconds < 2 ^ 64) × (m.old.charge + picocoulombs < 2 ^ 64) }
    ensures { m.new ≡ metered m.old microseconds picocoulombs }
{
    m.clock += microseconds;
    m.charge += picocoulombs;
}

// The same on plain values: a caller of this one borrows nothing.
pub fn advanced(m: Meter, microseconds: u64, picocoulombs: u64) -> Meter
    requires { (m.clock + microseconds < 2 ^ 64) × (m.charge + picocoulombs < 2 ^ 64) }
    ensures { result ≡ metered m microseconds picocoulombs }
{
    let mut meter = m;
    add_to(&mut meter, microseconds, picocoulombs);
    meter
}
