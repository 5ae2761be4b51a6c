// Monic quartics, `quartic_factor` of poly.rs, on all bits: a root of the resolvent, a cubic, splits the quartic into two quadratics, and Newton's method on
// their coefficients refines them. It rests on the leaves, `refine` and `cubic`; `isolated` and `factorize` rest on it.
#![tactic(auto)]

ghost use Rattle.std.specs.Prelude.{◌≡◌};
ghost use Rattle.cubic.specs.Cubic.{places_of, count_of};
ghost use Rattle.quartic.specs.Quartic.{largest_of, resolvent_of, is_clear_of, ferrari_of, quartic_factor_of, quartic_systems_of};

use angle::Sine;
use cubic::CubicRoots;
use tally::Tallied;

// (y^2 + al*y + be) * (y^2 + ga*y + de)
#[derive(Clone, Copy)]
pub struct QuarticFactor {
    pub al: f64,
    pub be: f64,
    pub ga: f64,
    pub de: f64,
}

// (t^2 + u*t + v) * (t^2 - u*t + w)
#[derive(Clone, Copy)]
struct Depressed {
    u: f64,
    v: f64,
    w: f64,
}

#[tactic(auto, using(crate::proofs::Laws::largest_one, crate::proofs::Laws::largest_three))]
fn largest(roots: CubicRoots) -> f64
    ensures { result ≡ largest_of (places_of roots) (count_of roots) }
{
    let least = f64::NEG_INFINITY;
    match roots {
        CubicRoots::One(r) => float::max(least, r),
        CubicRoots::Three(roots) => roots.into_iter().fold(least, float::max),
    }
}

// m^3 + 2p*m^2 + (p^2 - 4r)*m - q^2. (p, q and r by themselves, here and below: each function is a formula of poly.rs in these letters, and would take a
// struct of them apart at once.)
#[tactic(auto, unfolding(crate::specs::Quartic::resolvent_of))]
fn resolvent(sine: Sine, p: f64, q: f64, r: f64) -> f64
    ensures { result ≡ resolvent_of sine p q r }
{
    let m2 = 2.0 * p;
    let m1 = p * p - 4.0 * r;
    let m0 = -q * q;
    let start = largest(cubic::cubic_closed_form(sine, m2, m1, m0));
    refine::newton_cubic([m0, m1, m2, 1.0, 0.0], start)
}

#[tactic(auto, unfolding(crate::specs::Quartic::is_clear_of))]
fn is_clear(p: f64, r: f64, m: f64) -> bool
    ensures { result ≡ is_clear_of p r m }
{
    let scale = float::abs(p) + sqrt::sqrt(float::abs(r));
    m > 1e-8 * scale && float::is_finite(m)
}

// u = sqrt(m), or biquadratic (q ~ 0): v + w = p, v*w = r.
#[tactic(auto, unfolding(crate::specs::Quartic::ferrari_of))]
fn ferrari(p: f64, q: f64, r: f64, m: f64) -> Depressed
    ensures { result ≡ ferrari_of p q r m }
{
    if is_clear(p, r, m) {
        let u = sqrt::sqrt(m);
        return Depressed {
            u,
            v: 0.5 * (p + m - q / u),
            w: 0.5 * (p + m + q / u),
        };
    }
    let disc = float::max(p * p - 4.0 * r, 0.0);
    let z = 0.5 * (p + float::copysign(sqrt::sqrt(disc), p));
    Depressed {
        u: 0.0,
        v: z,
        w: cubic::over_or(r, z, 0.0),
    }
}

// With y = t + shift: t^4 + p*t^2 + q*t + r. (The coefficients one by one, as in poly.rs and as C hands them in.)
#[tactic(auto, unfolding(crate::specs::Quartic::quartic_factor_of, crate::specs::Quartic::quartic_systems_of, crate::specs::Quartic::quartic_start_of))]
pub fn quartic_factor(sine: Sine, b: f64, c: f64, d: f64, e: f64) -> Tallied<QuarticFactor>
    ensures value { result.value ≡ quartic_factor_of sine b c d e }
    ensures systems { result.systems ≡ quartic_systems_of sine b c d e }
{
    let shift = -0.25 * b;
    let b2 = b * b;
    let p = c - 0.375 * b2;
    let q = d - 0.5 * b * c + 0.125 * b2 * b;
    let r = e - 0.25 * b * d + 0.0625 * b2 * c - 0.01171875 * b2 * b2;
    let m = resolvent(sine, p, q, r);
    let t = ferrari(p, q, r, m);
    let s2 = shift * shift;
    let start = [
        t.u - 2.0 * shift,
        s2 - t.u * shift + t.v,
        -t.u - 2.0 * shift,
        s2 + t.u * shift + t.w,
    ];
    let refined = refine::refine_quartic(b, c, d, e, start);
    let [al, be, ga, de] = refined.value;
    refined.with(QuarticFactor { al, be, ga, de })
}
