// s for the exact c. With t for a sine, t (3 - 4t^2) is that of three times the angle, and its square is to be 1 - v^2: a guess in floating point, tested
// exactly by this in whole numbers, and a search where the test fails.
ghost use Rattle.std.specs.Prelude.{◌≡◌, true, false, ◌+◌, ◌-◌, ◌*◌, ◌^◌, ◌≤◌, ◌<◌, IfSome};
ghost use Rattle.float.specs.Methods.{is_finite_of};
ghost use Rattle.float.specs.Units.{units_of};
ghost use Rattle.wide.specs.Double.{double_of};
ghost use Rattle.wide.specs.Quad.{quad_of};
ghost use Rattle.angle.specs.Third.{exact_sin_of};
ghost use Rattle.angle.specs.Parts.{tripled, gap_of, within, sin_le, Binade, Placed};

use crate::Step;
use decode::Digits;
use wide::{Double, Eight, Quad};

// ---- the test

// 2^228 (1 - v^2), for a v of the size w * 2^k / 2^1126.
fn gap_of(d: Digits) -> Quad
    requires k_low { 1012 ≤ d.k }
    requires k_high { d.k < 1074 }
    ensures { quad_of result ≡ gap_of d.w d.k }
{
    let x = wide::mul(d.w, 1u64 << (d.k - 1012));
    let one = Quad {
        w3: 0x10_0000_0000,
        ..Quad::ZERO
    };
    wide::difference(one, wide::product(x, x)).0
}

// t (a * 2^128 - t * b).
fn tripled(t: u64, a: u64, b: Double) -> Quad
    requires { t * t * double_of b ≤ t * a * 2 ^ 128 }
    ensures { quad_of result + t * t * double_of b ≡ t * a * 2 ^ 128 }
{
    let p = wide::mul(t, a);
    let first = Quad {
        w3: p.hi,
        w2: p.lo,
        ..Quad::ZERO
    };
    wide::difference(first, wide::product(wide::mul(t, t), b)).0
}

// t (3 * 2^118 - t^2) * 2^64, with t / 2^60 for a sine.
fn tripled_large(t: u64) -> Quad
    requires { t * t ≤ 3 * 2 ^ 118 }
    ensures { quad_of result ≡ tripled (2 ^ 59) t * 2 ^ 64 }
{
    tripled(t, 0xc0_0000_0000_0000, Double { hi: t, lo: 0 })
}

// t (3 * 2^(2k - 2) - t^2) * 2^(244 - 3k), with t / 2^k for a small sine.
fn tripled_small(t: u64, k: u64) -> Quad
    requires t_high { t ≤ 2 ^ 54 }
    requires k_low { 60 < k }
    requires k_high { k ≤ 81 }
    ensures { quad_of result ≡ tripled (2 ^ (k - 1)) t * 2 ^ (244 - 3 * k) }
{
    tripled(t, 3u64 << (114 - k), wide::mul(t, 1u64 << (244 - 3 * k)))
}

// Whether a square is at most the gap, or, below zero, at least it: by all words.
#[cold]
#[inline(never)]
fn is_within_all(q: Quad, gap: Quad, below: bool) -> bool
    ensures { result ≡ within below (quad_of gap * 2 ^ 256) (quad_of q * quad_of q) }
{
    let level = Eight {
        hi: gap,
        lo: Quad::ZERO,
    };
    let square = wide::square(q);
    if below {
        wide::eight_at_most(level, square)
    } else {
        wide::eight_at_most(square, level)
    }
}

// The same: the square of the two upper words says so, where it is above the gap, or below it by 2^129 at least.
fn is_within(q: Quad, gap: Quad, below: bool) -> bool
    ensures { result ≡ within below (quad_of gap * 2 ^ 256) (quad_of q * quad_of q) }
{
    let top = Double { hi: q.w3, lo: q.w2 };
    let (rest, over) = wide::difference(gap, wide::product(top, top));
    if over {
        return below;
    }
    if 0 < rest.w3 || 1 < rest.w2 {
        return !below;
    }
    is_within_all(q, gap, below)
}

// Whether t / 2^k is at most s. It is up to a half where s is small, and for a v below zero s is a half at least; 998459311558907193 / 2^60 is half
// the root of 3.
#[inline(always)]
fn test_sin(t: u64, k: u64, gap: Quad, below: bool) -> bool
    requires t_high { t ≤ 2 ^ 54 }
    requires k_low { 54 ≤ k }
    requires k_high { k ≤ 81 }
    ensures { result ≡ sin_le below (quad_of gap) k t }
{
    if 60 < k {
        return below || is_within(tripled_small(t, k), gap, false);
    }
    let u = t << (60 - k);
    if below {
        return u <= 0x800_0000_0000_0000
            || u <= 998459311558907193 && is_within(tripled_large(u), gap, true);
    }
    u <= 0x800_0000_0000_0000 && is_within(tripled_large(u), gap, false)
}

// ---- s

// The k for which 2^k * s has 54 digits before the point.
#[tactic(auto, using(crate::proofs::Binades::next_fails, crate::proofs::Binades::last_binade))]
#[cold]
#[inline(never)]
fn search_binade(gap: Quad, below: bool) -> u64
    requires { sin_le below (quad_of gap) 81 (2 ^ 53) ≡ true }
    ensures { Binade below (quad_of gap) result }
{
    for k in 54..81 {
        if test_sin(0x20_0000_0000_0000, k, gap, below) {
            return k;
        }
    }
    81
}

// m * 2 / 2^k.
#[derive(Clone, Copy)]
struct Place {
    m: u64,
    k: u64,
}

// A guess at s from 2^-28 to 1, where the tests of both middles beside it agree. Of a power of two the lower one is the guess itself: below it doubles are
// closer.
fn by_guess(guess: f64, gap: Quad, below: bool) -> Option<Place>
    ensures { IfSome result (λ p. Placed below (quad_of gap) p.m p.k) }
{
    if guess >= 0.0 {
        let b = guess.to_bits();
        let field = b / 0x10_0000_0000_0000;
        let m = nearest::significand(b);
        if 995 <= field && field <= 1022 {
            let k = 1076 - field;
            let low = (2 * m - 1).max(0x20_0000_0000_0000);
            if test_sin(low, k, gap, below) && !test_sin(2 * m + 1, k, gap, below) {
                return Some(Place { m, k });
            }
        }
    }
    None
}

// m is the whole number nearest to 2^(k - 1) * s, with 53 digits: a guess at s, or by the searches.
fn near_sin(guess: f64, gap: Quad, below: bool) -> Place
    requires { sin_le below (quad_of gap) 81 (2 ^ 53) ≡ true }
    ensures { Placed below (quad_of gap) result.m result.k }
{
    if let Some(place) = by_guess(guess, gap, below) {
        return place;
    }
    let k = search_binade(gap, below);
    let t = nearest::whole_part(|t| test_sin(t, k, gap, below));
    Place { m: (t + 1) / 2, k }
}

// One step of Halley's iteration from s to the root of q + e, where q is the square of s.
fn halley(s: f64, q: f64, e: f64) -> f64 {
    s + 2.0 * s * e / (4.0 * q + e)
}

// A guess for u = 1 - v below 2^-9, where u is exact: 9 s^2 / 2 is a series in u, and s has 24 digits, so that 9 s^2 is exact.
fn guess_small(u: f64) -> f64 {
    let x = crate::rough(u * (0.2222222222222222 + 0.0205761316872428 * u));
    let f = 536870913.0 * x;
    let s = f - (f - x);
    let g = 3.0 * s;
    let q = 0.5 * (g * g);
    let series = 0.09259259259259259
        + u * (0.02194787379972565
            + u * (0.006706294772138394 + u * (0.00231822535333179 + u * 0.000862504719000548)));
    halley(s, q, u - q + u * (u * series))
}

// A guess at s, from p for 2c - 1 and a step to c: the rough root of s^2 = (1 - v) (1 + c) / (1 + 2c)^2, and a step to that of 1 - c^2 from its first 26
// digits, for a c in two parts. Adding and taking away 3 * 2^25 keeps those digits of c whose square is exact. What is missing of c is d - b d^2 + 3.2 d^3,
// the last factor as it is for a c near 1, where s wants it.
pub fn guess(v: f64, p: f64, step: Step) -> f64 {
    let u = 1.0 - v;
    if u < 0.001953125 {
        return guess_small(u);
    }
    let Step { x, inverse, d, b } = step;
    let s = crate::leading(crate::rough(u * (1.5 + 0.5 * p)) * (x * inverse));
    let q = s * s;
    let head = 0.5 + 0.5 * x;
    let high = head + 100663296.0 - 100663296.0;
    let low = head - high + (d - d * d * (b - 3.2 * d));
    halley(s, q, 1.0 - high * high - q - (2.0 * high + low) * low)
}

// s for the exact c, from a guess at it, for a v from -1 to 1. For a v below 2^-54 in size a half is nearest.
#[inline(never)]
pub fn exact_sin(v: f64, guess: f64) -> f64
    requires finite { is_finite_of v ≡ true }
    requires inside { units_of v ≤ 2 ^ 1074 }
    ensures { result ≡ exact_sin_of v }
{
    let Some(d) = decode::normal_of(v) else {
        return 0.5;
    };
    if d.k < 1020 {
        return 0.5;
    }
    let below = v < 0.0;
    if d.k < 1074 {
        let place = near_sin(guess, gap_of(d), below);
        return nearest::from_units(place.m, 1075 - place.k);
    }
    if below { 0.8660254037844386 } else { 0.0 }
}
