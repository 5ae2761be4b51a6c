// Powers of two, and products with them: the Rust's pow2 and ldexp.
// It rests on `float`; the scaling of polynomials rests on it, and the bit patterns of proofs/Pack serve every leaf.
#![tactic(auto)]

ghost use Rattle.std.specs.Prelude.{◌≡◌, true, ◌≤◌, ℤ, pos, negsuc, ◌≤ℤ◌};
ghost use Rattle.std.specs.Float.Ieee.{minus};
ghost use Rattle.float.specs.Rounded.{◌*ᶠ◌};
ghost use Rattle.ldexp.specs.Scale.{pow2_of, signed, ldexp_of};
ghost use Rattle.ldexp.specs.Total.{pow2_or_nan};

// Whether every product with a power of two leaves x as it is: a zero, an infinity, a NaN.
#[tactic(auto, using(crate::proofs::Chain::steady_zero, crate::proofs::Chain::steady_special))]
fn steady(x: f64) -> bool
    ensures { result ≡ true → (k : ℤ) → x *ᶠ pow2_of k ≡ x }
{
    x == 0.0 || !float::is_finite(x)
}

// An exponent as its sign and its size. (Not an i64: the difference of two words, which ldexp_by takes, is beyond one, and the chain goes down by size.)
#[derive(Clone, Copy)]
struct Signed {
    below: bool,
    n: u64,
}

impl Signed {
    fn of(k: i32) -> Signed
        ensures { k ≡ signed result.below result.n }
    {
        Signed {
            below: k < 0,
            n: k.unsigned_abs() as u64,
        }
    }

    // 2 to it: the field of the exponent is all that is not 0 in the bits.
    #[tactic(auto, using(crate::proofs::Pack::pack_not_nan, crate::proofs::Pack::power_up, crate::proofs::Pack::power_down))]
    fn power(self) -> f64
        requires n_high { self.n ≤ 1023 }
        requires n_high_below { (self.below ≡ true → self.n ≤ 1022) }
        ensures { result ≡ pow2_of (signed self.below self.n) }
    {
        if self.below {
            return f64::from_bits((1023 - self.n) * 0x10_0000_0000_0000);
        }
        f64::from_bits((1023 + self.n) * 0x10_0000_0000_0000)
    }

    // x times 2 to it.
    #[tactic(auto, using(crate::proofs::Chain::by_sign, crate::proofs::Chain::all_steady, crate::proofs::Chain::all_last, crate::proofs::Chain::all_step))]
    fn scaled(self, x: f64) -> f64
        ensures { result ≡ ldexp_of x (signed self.below self.n) }
    {
        let step = Signed { n: 1000, ..self };
        let mut y = x;
        let mut n = self.n;
        // (A while: what is left of n is what the last product takes; a for would count the turns beside it.)
        while 1000 < n {
            if steady(y) {
                return y;
            }
            y = y * step.power();
            n -= 1000;
        }
        y * Signed { n, ..self }.power()
    }
}

// 2^k, for a k that the normal range holds.
#[tactic(auto, using(crate::proofs::Sign::range))]
pub fn pow2(k: i32) -> f64
    requires { (negsuc 1021 ≤ℤ k) × (k ≤ℤ pos 1023) }
    ensures { result ≡ pow2_of k }
{
    Signed::of(k).power()
}

// 2^k for every k, NaN where the normal range holds none.
#[tactic(auto, using(float::proofs::Bits::nan_pattern), unfolding(crate::specs::Total::pow2_or_nan))]
pub fn pow2_or_nan(k: i32) -> f64
    ensures { result ≡ pow2_or_nan k }
{
    if !(-1022..=1023).contains(&k) {
        return f64::NAN;
    }
    pow2(k)
}

// x * 2^k, as a chain of products with powers of two.
pub fn ldexp(x: f64, k: i32) -> f64
    ensures { result ≡ ldexp_of x k }
{
    Signed::of(k).scaled(x)
}

// x * 2^(p - q), for an exponent that is kept unsigned.
#[tactic(auto, using(crate::proofs::Chain::difference))]
pub fn ldexp_by(x: f64, p: u64, q: u64) -> f64
    ensures { result ≡ ldexp_of x (minus p q) }
{
    Signed {
        below: p < q,
        n: p.abs_diff(q),
    }
    .scaled(x)
}
