// A double taken apart into whole numbers: the one place where an exponent is read from the highest set bit.
// It rests on `float` (units_of); square root, cube root, third angle, logarithm and scaling rest on it.
#![tactic(auto)]

ghost use Rattle.std.specs.Prelude.{◌≡◌};
ghost use Rattle.decode.specs.Exponent.{exponent_of};
ghost use Rattle.decode.specs.Shape.{Decoded};

pub use digits::Digits;

mod digits;

// The digits of a finite x that is not zero, all 53 of them. Below 2^-1022 the leading zeros of the 52-bit fraction say how far they
// are shifted. None for a zero, an infinity and a NaN.
#[tactic(auto, using(crate::proofs::Class::read))]
pub fn normal_of(x: f64) -> Option<Digits>
    ensures { Decoded x result }
{
    if float::is_nan(x) {
        return None;
    }
    let b = x.to_bits() % 0x8000_0000_0000_0000;
    let field = b / 0x10_0000_0000_0000;
    let fraction = b % 0x10_0000_0000_0000;
    match (field, fraction) {
        (0x7ff, _) | (0, 0) => None,
        (0, _) => {
            let z = fraction.leading_zeros() - 11;
            Some(Digits {
                w: fraction << z,
                k: 52 - z as u64,
            })
        }
        _ => Some(Digits {
            w: 0x10_0000_0000_0000 + fraction,
            k: field + 51,
        }),
    }
}

// The exponent of x: the greatest k with 2^k <= |x|. 1024 for an infinity and a NaN, -1075 for a zero. (No Option: it is the
// Rust's function and C's, and these two stand above and below all others.)
#[tactic(auto, using(crate::proofs::Highest::exponents))]
pub fn exponent(x: f64) -> i32
    ensures { result ≡ exponent_of x }
{
    if x == 0.0 {
        return -1075;
    }
    match normal_of(x) {
        None => 1024,
        Some(n) => n.k as i32 - 1074,
    }
}
