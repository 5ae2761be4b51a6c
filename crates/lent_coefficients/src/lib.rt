// Coefficients in lent bytes, any number of them, as the six numbers that are solved alike. It rests on `float`, `poly` (its definition of the six) and
// `lent_bytes`; the C functions of lists and inquiries, `pongewaru`, rest on it.
#![tactic(auto)]

ghost use Rattle.std.specs.Prelude.{◌≡◌, get_or, drop};
ghost use Rattle.float.specs.Literals.{zero64};
ghost use Rattle.poly.specs.Short.{rest_with, rest_of, short_of};
ghost use Rattle.lent_coefficients.specs.Coefficients.{coefficients_at};

use float::{f64_at, is_finite};

// The coefficient i, 0 where there are fewer.
#[tactic(auto, using(crate::proofs::Reading::read_here, crate::proofs::Reading::read_none))]
fn coefficient_at(s: &[u8], i: usize) -> f64
    ensures { result ≡ get_or (coefficients_at s.now) i zero64 }
{
    if i < s.len() / 8 {
        f64_at(s, 8 * i)
    } else {
        0.0
    }
}

// One number for those that rest stands for, and for x.
#[tactic(auto, unfolding(poly::specs::Short::rest_with))]
fn rest_with(rest: f64, x: f64) -> f64
    ensures { result ≡ rest_with rest x }
{
    if is_finite(rest) {
        if x == 0.0 { rest } else { x }
    } else {
        rest
    }
}

// One number for those behind the fifth. (By place: that `chunks_exact(8).skip(5)` hands a fold's closure eight bytes each time does not prove.)
fn rest_at(s: &[u8]) -> f64
    ensures { result ≡ rest_of (drop 5 (coefficients_at s.now)) }
{
    let mut rest = 0.0;
    for i in 5..s.len() / 8 {
        rest = rest_with(rest, f64_at(s, 8 * i));
    }
    rest
}

// The six numbers: five by their places, and the last over those behind.
// (Written out: by `array::from_fn` the last would be asked for at each place, or a sixth coefficient read and written over.)
#[tactic(auto, using(crate::proofs::Reading::short_is))]
pub fn short_at(s: &[u8]) -> [f64; 6]
    ensures { result ≡ short_of (coefficients_at s.now) }
{
    [
        coefficient_at(s, 0),
        coefficient_at(s, 1),
        coefficient_at(s, 2),
        coefficient_at(s, 3),
        coefficient_at(s, 4),
        rest_at(s),
    ]
}
