// Doubles: Rust's methods on f64 for all bits, and doubles as bits and as bytes. Every NaN is one NaN. Where std's method asks for more, or its contract says
// less or names another definition, the method is written here.
// It rests on `facts` and `rounding`. Every crate that computes with doubles rests on it.
#![tactic(auto)]

ghost use Rattle.std.specs.Prelude.{◌≡◌, cond, ◌||◌, ◌+◌, ◌^◌, ◌<◌, ◌≤◌, length, get_or};
ghost use Rattle.std.proofs.lemmas.List.Edits.{sets};
ghost use Rattle.std.specs.Float.{binary64};
ghost use Rattle.std.specs.Float.Ieee.{is_nan, lt, minus, of_int, of_bits, to_bits};
ghost use Rattle.float.specs.Literals.{zero64};
ghost use Rattle.float.specs.Methods.{abs_of, is_finite_of, all_finite_of, is_sign_negative_of, copysign_of, min_of, max_of, clamp_of, total_le_of, powi_of};
ghost use Rattle.float.specs.Floor.{floor_of};
ghost use Rattle.float.specs.Bytes.{u64_at, f64_at, bytes_of};

// std's, here and in is_finite, so that callers and the C functions find all methods of doubles in one place.
pub fn is_nan(x: f64) -> bool
    ensures { result ≡ is_nan x }
{
    x.is_nan()
}

// 0 - x where x is at most 0, so that -0 gives +0. (One test, where std's makes two; the wrong programs that are kept alter it, and the products of powi.)
#[tactic(auto, using(crate::proofs::Own::abs_less, crate::proofs::Own::abs_more))]
pub fn abs(x: f64) -> f64
    ensures { result ≡ abs_of x }
{
    if x <= 0.0 { 0.0 - x } else { x }
}

#[tactic(auto, using(crate::proofs::Zero::finite_as))]
pub fn is_finite(x: f64) -> bool
    ensures { result ≡ is_finite_of x }
{
    x.is_finite()
}

// A fold and no `all`, which has a way out before the end: the loop of a few numbers is unrolled.
pub fn all_finite(s: &[f64]) -> bool
    ensures { result ≡ all_finite_of s.now }
{
    s.iter().fold(true, |all, x| all & is_finite(*x))
}

#[tactic(auto, using(crate::proofs::Zero::sign_as, crate::proofs::Zero::nan_sign))]
pub fn is_sign_negative(x: f64) -> bool
    ensures { result ≡ is_sign_negative_of x }
{
    !is_nan(x) && x.is_sign_negative()
}

// std's takes no NaN for y.
#[tactic(auto, using(crate::proofs::Zero::sign_on, crate::proofs::Zero::sign_off))]
pub fn copysign(x: f64, y: f64) -> f64
    ensures { result ≡ copysign_of x y }
{
    let a = abs(x);
    if is_sign_negative(y) { -a } else { a }
}

// y where it is to be taken, and where x is NaN. (Of two zeros std's min and max may answer either; these answer the first.)
fn pick(second: bool, x: f64, y: f64) -> f64
    ensures { result ≡ cond (second || is_nan x) y x }
{
    if second || is_nan(x) { y } else { x }
}

#[tactic(auto, unfolding(crate::specs::Methods::min_of))]
pub fn min(x: f64, y: f64) -> f64
    ensures { result ≡ min_of x y }
{
    pick(y < x, x, y)
}

#[tactic(auto, unfolding(crate::specs::Methods::max_of))]
pub fn max(x: f64, y: f64) -> f64
    ensures { result ≡ max_of x y }
{
    pick(x < y, x, y)
}

// std's asks that lo is at most hi.
#[tactic(auto, unfolding(crate::specs::Methods::clamp_of))]
pub fn clamp(x: f64, lo: f64, hi: f64) -> f64
    ensures { result ≡ clamp_of x lo hi }
{
    let y = if x < lo { lo } else { x };
    if y > hi { hi } else { y }
}

// std's total_cmp takes no NaN.
#[tactic(auto, unfolding(crate::specs::Methods::total_le_of))]
pub fn total_le(x: f64, y: f64) -> bool
    ensures { result ≡ total_le_of x y }
{
    is_nan(y) || x < y || (x == y && (is_sign_negative(x) || !is_sign_negative(y)))
}

// The five powers written out, where std's makes a loop. (As in abs.)
#[tactic(auto, unfolding(crate::specs::Methods::powi_of))]
pub fn powi(v: f64, n: usize) -> f64
    requires { n ≤ 4 }
    ensures { result ≡ powi_of v n }
{
    match n {
        0 => 1.0,
        1 => v,
        2 => v * v,
        3 => v * v * v,
        _ => v * v * (v * v),
    }
}

// (p - q) as f64, where the Rust has an i32.
#[tactic(auto, using(crate::proofs::Whole::difference_fits, crate::proofs::Whole::difference_is, crate::proofs::Whole::difference_exact))]
pub fn difference(p: u64, q: u64) -> f64
    requires p_high { p ≤ 2 ^ 53 }
    requires q_high { q ≤ 2 ^ 53 }
    ensures { result ≡ of_int binary64 (minus p q) }
{
    (p as i64 - q as i64) as f64
}

// x rounded down, and 8192. It lies between low and high, and each turn halves what is left. (By hand: std's floor answers a double of any size, which would be
// cut, moved up and cast, with the laws of each: no plainer.)
#[tactic(auto, using(crate::proofs::RoundDown::reached, crate::proofs::RoundDown::missed, crate::proofs::RoundDown::floor_below))]
pub fn floor(x: f64) -> u64
    ensures { result ≡ floor_of x }
{
    // (A while over two bounds: what is found so far is said of both, and the cut at 16383 is the upper one.)
    let mut low: u64 = 0;
    let mut high: u64 = 16384;
    while low + 1 < high {
        let middle = (low + high) / 2;
        if difference(middle, 8192) <= x {
            low = middle;
        } else {
            high = middle;
        }
    }
    low
}

// A NaN's pattern, the sign taken off, is above infinity's.
#[tactic(auto, using(crate::proofs::Bits::above_infinity, crate::proofs::Bits::up_to_infinity, crate::proofs::Bits::nan_pattern))]
pub fn from_bits(n: u64) -> f64
    ensures { result ≡ of_bits binary64 n }
{
    if n % 0x8000_0000_0000_0000 > 0x7FF0_0000_0000_0000 {
        return f64::NAN;
    }
    f64::from_bits(n)
}

// f64::to_bits has no value at NaN.
#[tactic(auto, using(crate::proofs::Bits::bits_of_nan))]
pub fn to_bits(x: f64) -> u64
    ensures { result ≡ to_bits binary64 x }
{
    if is_nan(x) {
        return 0x7FF8_0000_0000_0000;
    }
    f64::to_bits(x)
}

// The number in the eight bytes from at on, lowest first. (s and at by themselves, here and below: callers read on from place to place, and would make a
// struct of both anew for each read.)
pub fn u64_at(s: &[u8], at: usize) -> u64
    requires { at + 8 ≤ length s.now }
    ensures { result ≡ u64_at s.now at }
{
    u64::from_le_bytes(std::array::from_fn(|i| s[at + i]))
}

// n into the eight bytes from at on, lowest first.
#[tactic(auto, using(crate::proofs::Bytes::le_bytes, crate::proofs::Bytes::length_bytes, crate::proofs::Bytes::stored))]
pub fn put_u64(out: &mut [u8], at: usize, n: u64)
    requires { at + 8 ≤ length out.old }
    ensures { out.new ≡ sets out.old at (bytes_of n) }
{
    out[at..at + 8].copy_from_slice(&n.to_le_bytes());
}

#[tactic(auto, unfolding(crate::specs::Bytes::f64_at))]
pub fn f64_at(s: &[u8], at: usize) -> f64
    requires { at + 8 ≤ length s.now }
    ensures { result ≡ f64_at s.now at }
{
    from_bits(u64_at(s, at))
}

pub fn put_f64(out: &mut [u8], at: usize, x: f64)
    requires { at + 8 ≤ length out.old }
    ensures { out.new ≡ sets out.old at (bytes_of (to_bits binary64 x)) }
{
    put_u64(out, at, to_bits(x));
}
