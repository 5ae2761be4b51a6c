// Text in a lent buffer: bytes, and numbers in decimal and hexadecimal digits.
// It rests on the library alone; whatever writes lines rests on it.
#![tactic(auto)]

ghost use Rattle.std.specs.Prelude.{[], ◌∷◌, ◌≡◌, ◌<◌, length};
ghost use Rattle.text.specs.Digits.{hex_digit, hex_digits, decimal, signed_decimal};
ghost use Rattle.text.specs.Written.{Written, Room};

// A buffer, and the place where the next byte goes. What lies beyond the buffer's end is not stored, but counted. (`Room` bounds the
// place, and no ghost field: each call moves it, and would have to ask for the same room to keep such a field.)
#[derive(Drop)]
pub struct Text<'a> {
    pub out: &'a mut [u8],
    pub at: usize,
}

// A digit below 16, in upper case. (By hand, as the numbers are: `write!` to a sink of one's own says what it wrote only where it returns Ok,
// and no clause says that it will, so `Written` would not hold of every call.)
#[tactic(auto, unfolding(crate::specs::Digits::hex_digit))]
fn hex_digit(d: u64) -> u8
    requires { d < 16 }
    ensures { result ≡ hex_digit d }
{
    if d < 10 {
        b'0' + d as u8
    } else {
        b'A' + (d - 10) as u8
    }
}

impl<'a> Text<'a> {
    pub fn byte(&mut self, b: u8)
        requires { Room self.old 1 }
        ensures { Written self.old (b ∷ []) self.new }
    {
        if self.at < self.out.len() {
            self.out[self.at] = b;
        }
        self.at += 1;
    }

    pub fn bytes(&mut self, s: &[u8])
        requires { Room self.old (length s.now) }
        ensures { Written self.old s.now self.new }
    {
        for b in s {
            self.byte(*b);
        }
    }

    // The last hexadecimal digits of n, as many as `digits` says. (A recursion, as the definition: the leading digits come first.)
    #[tactic(auto, using(crate::proofs::Digits::hex_length, crate::proofs::Laws::written_no_hex))]
    pub fn hex(&mut self, n: u64, digits: usize)
        requires { Room self.old digits }
        ensures { Written self.old (hex_digits digits n) self.new }
    {
        if digits > 0 {
            self.hex(n / 16, digits - 1);
            self.byte(hex_digit(n % 16));
        }
    }

    // The decimal digits of n. (A recursion: the leading digits come first, and how many there are is not known before.)
    #[tactic(auto, using(crate::proofs::Digits::decimal_lengths))]
    pub fn decimal(&mut self, n: u64)
        requires { Room self.old (length (decimal n)) }
        ensures { Written self.old (decimal n) self.new }
    {
        if n < 10 {
            self.byte(b'0' + n as u8);
        } else {
            self.decimal(n / 10);
            self.byte(b'0' + (n % 10) as u8);
        }
    }

    // A '-' before a number below zero.
    #[tactic(auto, using(crate::proofs::Laws::written_then), unfolding(crate::specs::Digits::signed_decimal))]
    pub fn signed(&mut self, k: i32)
        requires { Room self.old (length (signed_decimal k)) }
        ensures { Written self.old (signed_decimal k) self.new }
    {
        if k < 0 {
            self.byte(b'-');
        }
        self.decimal(k.unsigned_abs() as u64);
    }
}
