// Text on a page, a lent buffer that is filled from its beginning on: each method puts its bytes behind those that are there.
#![tactic(auto)]

ghost use Rattle.std.specs.Prelude.{◌≡◌, ◌+◌, ◌%◌, ◌≤◌, length};
ghost use Rattle.printing.specs.Text.{digit, item, decimal, hexadecimal};
ghost use Rattle.printing.specs.Page.{HasRoom, Adds};

// No `fmt::Write`: `write!` is promised its bytes on Ok alone, and these methods can't fail.
#[derive(Drop)]
pub struct Page<'a> {
    pub buffer: &'a mut [u8],
    pub end: usize,
}

impl<'a> Page<'a> {
    pub fn bytes(&mut self, text: &[u8])
        requires { HasRoom self.old (length text.now) }
        ensures { Adds self.old self.new text.now (length text.now) }
    {
        let end = self.end + text.len();
        self.buffer[self.end..end].copy_from_slice(text);
        self.end = end;
    }

    // A blank, and the bytes.
    pub fn item(&mut self, text: &[u8])
        requires { HasRoom self.old (length text.now + 1) }
        ensures { Adds self.old self.new (item text.now) (length text.now + 1) }
    {
        self.bytes(b" ");
        self.bytes(text);
    }

    #[tactic(auto, using(crate::proofs::Digits::digits_decimal))]
    pub fn decimal(&mut self, n: u64)
        requires { HasRoom self.old 20 }
        ensures { Adds self.old self.new (decimal n) 20 }
    {
        let mut digits = [0u8; 20];
        let count = io::decimal(n, &mut digits);
        self.bytes(&digits[..count]);
    }

    // A blank, and a number in decimal.
    pub fn number(&mut self, n: u64)
        requires { HasRoom self.old 21 }
        ensures { Adds self.old self.new (item (decimal n)) 21 }
    {
        self.bytes(b" ");
        self.decimal(n);
    }

    // A blank, and "the word as four hexadecimal digits": those of `io::hex` would be in lower case.
    pub fn word(&mut self, word: u16)
        requires { HasRoom self.old 5 }
        ensures { Adds self.old self.new (item (hexadecimal word)) 5 }
    {
        let digits = [
            digit_of(word >> 12),
            digit_of(word >> 8),
            digit_of(word >> 4),
            digit_of(word),
        ];
        self.item(&digits);
    }
}

// The lowest four bits of a word, in hexadecimal.
#[tactic(auto, unfolding(crate::specs::Text::digit))]
fn digit_of(word: u16) -> u8
    ensures { result ≡ digit (word % 16) }
{
    let digits = b"0123456789ABCDEF";
    let value = (word % 16) as usize;
    digits[value]
}
