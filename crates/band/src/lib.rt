// The clustering band of a scaled polynomial: `noise`, `band` and `within_band` of poly.rs.
// It rests on the leaves, `horner` and `scaled`; `critical`, `push` and `finish` rest on it.
#![tactic(auto, using(crate::proofs::Laws::laws), unfolding(crate::proofs::Laws::definitions))]

ghost use Rattle.std.specs.Prelude.{◌≡◌, ◌≤◌};
ghost use Rattle.band.specs.Band.{magnitude_of, budget_of, kth_root_of, radius_step, radius_of, noise_within, noise_of, base_of, band_of, within_band_of, bare};

use horner::Polynomial;

const NOISE_FACTOR: f64 = 4.0;

// The sum of the sizes of p's terms at y.
#[tactic(auto, using(crate::proofs::Laws::magnitude_folded), unfolding(crate::specs::Band::magnitude_step))]
fn magnitude(p: Polynomial, y: f64) -> f64
    ensures { result ≡ magnitude_of p.f p.d y }
{
    let ay = float::abs(y);
    p.f[..=p.d]
        .iter()
        .copied()
        .rev()
        .fold(0.0, |acc, c| acc * ay + float::abs(c))
}

// What rounding may do to p at y.
pub fn budget(p: Polynomial, y: f64) -> f64
    ensures { result ≡ budget_of p.f p.d y }
{
    NOISE_FACTOR * f64::EPSILON * magnitude(p, y)
}

// q^(1/k). (A match: the root is chosen by the data, k, and each is a function by name; a table of functions would say the same.)
fn kth_root(k: usize, q: f64) -> f64
    ensures { result ≡ kth_root_of k q }
{
    match k {
        2 => sqrt::sqrt(q),
        3 => cbrt::cbrt(q),
        _ => sqrt::sqrt(sqrt::sqrt(q)),
    }
}

// The smaller of r and (budget / |t_k|)^(1/k).
fn radius_step(t: [f64; 5], budget: f64, k: usize, r: f64) -> f64
    requires { k ≤ 4 }
    ensures { result ≡ radius_step t budget k r }
{
    let tk = t[k];
    if tk != 0.0 {
        return float::min(r, kth_root(k, budget / float::abs(tk)));
    }
    r
}

// (By number: k is the place of t_k and the root that is taken of it.)
fn radius(t: [f64; 5], d: usize, budget: f64) -> f64
    requires { d ≤ 4 }
    ensures { result ≡ radius_of t d budget }
{
    let mut r = f64::INFINITY;
    for k in 2..=d {
        r = radius_step(t, budget, k, r);
    }
    r
}

// The noise, with the budget at hand. (In line: else its caller copies a polynomial that was just made.)
#[inline(always)]
pub fn noise_within(p: Polynomial, y: f64, budget: f64) -> f64
    ensures { result ≡ noise_within p.f p.d y budget }
{
    let t = p.taylor(y);
    let r = radius(t, p.d, budget);
    if float::is_finite(r) {
        return r;
    }
    0.0
}

pub fn noise(poly: scaled::Scaled, y: f64) -> f64
    requires { poly.d ≤ 4 }
    ensures { result ≡ noise_of poly y }
{
    let p = poly.polynomial();
    noise_within(p, y, budget(p, y))
}

// The caller's band tol * (1 + |x|), in y.
pub fn base_band(unit: f64, y: f64, tol: f64) -> f64
    ensures { result ≡ base_of unit y tol }
{
    tol * (unit + float::abs(y))
}

pub fn band(poly: scaled::Scaled, y: f64, tol: f64) -> f64
    requires { poly.d ≤ 4 }
    ensures { result ≡ band_of poly y tol }
{
    base_band(poly.unit, y, tol) + noise(poly, y)
}

pub fn within_band(poly: scaled::Scaled, half: f64, y: f64, tol: f64) -> bool
    requires { poly.d ≤ 4 }
    ensures { result ≡ within_band_of poly half y tol }
{
    within(poly.polynomial(), poly.unit, half, y, tol)
}

// The crude bound first: the noise needs roots. (p and unit by themselves, here and in critical::double_at: push makes one Polynomial of its Scaled for both.)
pub fn within(p: Polynomial, unit: f64, half: f64, y: f64, tol: f64) -> bool
    ensures { result ≡ within_band_of (bare p.f p.d unit) half y tol }
{
    let base = base_band(unit, y, tol);
    if half <= base {
        return true;
    }
    let most = budget(p, y);
    if float::powi(half - base, p.d) * float::abs(p.f[p.d]) > most {
        return false;
    }
    half <= base + noise_within(p, y, most)
}
