// Monic cubics, `cubic_closed_form` and `cubic_factor` of poly.rs, on all bits: a closed form gives a start, and Newton's method on the factors' coefficients
// refines it. It rests on the leaves and `refine`; `quartic`, `isolated` and `factorize` rest on it.
#![tactic(auto)]

ghost use Rattle.std.specs.Prelude.{◌≡◌, ◌||◌};
ghost use Rattle.std.specs.Float.Ieee.{lt, le};
ghost use Rattle.float.specs.Literals.{zero64};
ghost use Rattle.cubic.specs.Cubic.{cardano_of, one_root_of, three_roots_of, cubic_closed_form_of, places_of, count_of};
ghost use Rattle.cubic.specs.Cubic.{isolation_among, most_isolated_of, over_or, cubic_factor_of, cubic_systems_of};

use angle::Sine;
use tally::Tallied;

// The real roots of a cubic.
#[derive(Clone, Copy)]
pub enum CubicRoots {
    One(f64),
    Three([f64; 3]),
}

fn has_one_root(disc: f64, p: f64) -> bool
    ensures { result ≡ (lt zero64 disc || le zero64 p) }
{
    disc > 0.0 || p >= 0.0
}

fn cardano(p: f64, a: f64) -> f64
    ensures { result ≡ cardano_of p a }
{
    if a != 0.0 { a - p / (3.0 * a) } else { 0.0 }
}

// Cardano: the term of larger size first. (shift, p, q and disc by themselves, as in cubic_closed_form of poly.rs: each function is a formula in these
// letters.)
#[tactic(auto, unfolding(crate::specs::Cubic::one_root_of))]
fn one_root(shift: f64, p: f64, q: f64, disc: f64) -> CubicRoots
    ensures { result ≡ one_root_of shift p q disc }
{
    let root = sqrt::sqrt(float::max(disc, 0.0));
    let a = -cbrt::cbrt(0.5 * q + float::copysign(root, q));
    let t = cardano(p, a);
    CubicRoots::One(t + shift)
}

// 0.5 * 3f64.sqrt()
const HALF_ROOT_THREE: f64 = 0.8660254037844386;

// cos(theta -+ 2pi/3) = -cos/2 +- sin*sqrt(3)/2.
#[tactic(auto, using(crate::proofs::Laws::half_root_three), unfolding(crate::specs::Cubic::three_roots_of))]
fn three_roots(sine: Sine, shift: f64, p: f64, q: f64) -> CubicRoots
    ensures { result ≡ three_roots_of sine shift p q }
{
    let m = 2.0 * sqrt::sqrt(-p / 3.0);
    let cos3 = float::clamp(1.5 * q / p * sqrt::sqrt(-3.0 / p), -1.0, 1.0);
    let third = angle::third_angle(sine, cos3);
    let a = -0.5 * third.cos;
    let b = HALF_ROOT_THREE * third.sin;
    CubicRoots::Three([
        m * third.cos + shift,
        m * (a + b) + shift,
        m * (a - b) + shift,
    ])
}

// `sine` is the mode: the third angle's sine is that of the rounded cosine, as in the reference build, or of the exact one.
// (The coefficients one by one, here and in cubic_factor, as in poly.rs and as C hands them in.)
#[tactic(auto, unfolding(crate::specs::Cubic::cubic_closed_form_of, crate::specs::Cubic::depressed_roots_of))]
pub fn cubic_closed_form(sine: Sine, b: f64, c: f64, d: f64) -> CubicRoots
    ensures { result ≡ cubic_closed_form_of sine b c d }
{
    let shift = -b / 3.0;
    let p = c - b * b / 3.0;
    let q = d + b * (2.0 * b * b - 9.0 * c) / 27.0;
    let disc = (0.5 * q) * (0.5 * q) + (p / 3.0) * (p / 3.0) * (p / 3.0);
    if has_one_root(disc, p) {
        one_root(shift, p, q, disc)
    } else {
        three_roots(sine, shift, p, q)
    }
}

// (y - r) * (y^2 + e*y + f)
#[derive(Clone, Copy)]
pub struct CubicFactor {
    pub r: f64,
    pub e: f64,
    pub f: f64,
}

// Of the root a, beside b and c.
fn isolation(a: f64, b: f64, c: f64) -> f64
    ensures { result ≡ isolation_among a b c }
{
    [float::abs(a - b), float::abs(a - c)]
        .into_iter()
        .fold(f64::INFINITY, float::min)
}

// The last of equally isolated roots.
#[tactic(auto, using(crate::proofs::Laws::most_isolated))]
fn most_isolated(roots: CubicRoots) -> f64
    ensures { result ≡ most_isolated_of (places_of roots) (count_of roots) }
{
    match roots {
        CubicRoots::One(r) => r,
        CubicRoots::Three(roots) => {
            // The three are written out: of each root the two others are named, and std's max_by takes no total_le, which orders NaNs.
            let [a, b, c] = roots;
            let i0 = isolation(a, b, c);
            let i1 = isolation(b, a, c);
            let i2 = isolation(c, a, b);
            let (best, iso) = if float::total_le(i0, i1) {
                (b, i1)
            } else {
                (a, i0)
            };
            if float::total_le(iso, i2) { c } else { best }
        }
    }
}

// x / z, or other where z is a zero.
pub fn over_or(x: f64, z: f64, other: f64) -> f64
    ensures { result ≡ over_or x z other }
{
    if z != 0.0 { x / z } else { other }
}

#[tactic(auto, unfolding(crate::specs::Cubic::cubic_factor_of, crate::specs::Cubic::cubic_systems_of, crate::specs::Cubic::cubic_start_of))]
pub fn cubic_factor(sine: Sine, b: f64, c: f64, d: f64) -> Tallied<CubicFactor>
    ensures value { result.value ≡ cubic_factor_of sine b c d }
    ensures systems { result.systems ≡ cubic_systems_of sine b c d }
{
    let start = most_isolated(cubic_closed_form(sine, b, c, d));
    let r = refine::newton_cubic([d, c, b, 1.0, 0.0], start);
    let f = over_or(-d, r, c);
    let refined = refine::refine_cubic(b, c, d, [r, b + r, f]);
    let [r, e, f] = refined.value;
    refined.with(CubicFactor { r, e, f })
}
