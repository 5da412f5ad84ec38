// What a line of a script may ask for: the type that specs/Orders is written over; specs/Language has what its bytes mean. No function.
#![tactic(auto)]

// What a whole line asks for.
#[derive(Clone, Copy)]
pub enum Order {
    // "An empty line or one whose first item starts with `#` does nothing."
    Nothing,
    // "A line that is none of the above."
    Malformed,
    Read(usize),
    Write(usize, u16),
    Wait(u64),
    // The debris is the first so many of the lent words.
    Cut(usize),
    // The first address, and how many words.
    Range(usize, usize),
    // The cells from an address on become the first so many of the lent words.
    Cell(usize, usize),
    // And so the one-time words.
    Otp(usize, usize),
    Fresh,
}
