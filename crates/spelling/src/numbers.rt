// A number, byte by byte: "Numbers are decimal, or hexadecimal after `0x`; an address and a wait are at most 2^64 - 1".
ghost use Rattle.std.specs.Prelude.{◌≡◌, unwrap_or};
ghost use Rattle.language.specs.Language.{digit_of};
ghost use Rattle.spelling.specs.declared.numbers.Number.TheVariants.{Wrong};
ghost use Rattle.spelling.specs.Numbers.{grown_to, next_number, value_of};

// What the bytes so far are.
#[derive(Clone, Copy)]
pub enum Number {
    // No byte yet.
    Nothing,
    // A single 0, which may begin `0x`.
    Zero,
    Decimal(u64),
    // `0x`, and no digit yet.
    Prefix,
    Hexadecimal(u64),
    // No number, or one above 2^64 - 1, whatever follows.
    Wrong,
}

pub fn next(number: Number, byte: u8) -> Number
    ensures { result ≡ next_number number byte }
{
    followed(number, byte).unwrap_or(Number::Wrong)
}

// A number that a byte follows, unless it is none then.
#[tactic(auto, unfolding(crate::specs::Numbers::next_number, crate::specs::Numbers::decimal_on, crate::specs::Numbers::hexadecimal_on))]
fn followed(number: Number, byte: u8) -> Option<Number>
    ensures { unwrap_or result Wrong ≡ next_number number byte }
{
    Some(match number {
        Number::Nothing if byte == b'0' => Number::Zero,
        Number::Zero if byte == b'x' => Number::Prefix,
        Number::Nothing | Number::Zero => Number::Decimal(grown(0, 10, digit_of(byte))?),
        Number::Decimal(value) => Number::Decimal(grown(value, 10, digit_of(byte))?),
        Number::Prefix => Number::Hexadecimal(grown(0, 16, digit_of(byte))?),
        Number::Hexadecimal(value) => Number::Hexadecimal(grown(value, 16, digit_of(byte))?),
        Number::Wrong => return None,
    })
}

pub fn value_of(number: Number) -> Option<u64>
    ensures { result ≡ value_of number }
{
    match number {
        Number::Nothing | Number::Prefix | Number::Wrong => None,
        Number::Zero => Some(0),
        Number::Decimal(value) | Number::Hexadecimal(value) => Some(value),
    }
}

// A value with one digit more, if it is a digit of the base and the value stays below 2^64.
#[tactic(auto, unfolding(crate::specs::Numbers::grown_to))]
fn grown(value: u64, base: u64, digit: u64) -> Option<u64>
    ensures { result ≡ grown_to value base digit }
{
    if base <= digit {
        return None;
    }
    value.checked_mul(base)?.checked_add(digit)
}

// The value of a hexadecimal digit, in either case of its letter; 16 for every other byte, as `digit_of` of the language has it.
#[tactic(auto, unfolding(language::specs::Language::digit_of))]
fn digit_of(byte: u8) -> u64
    ensures { result ≡ digit_of byte }
{
    char::from(byte).to_digit(16).map_or(16, u64::from)
}
