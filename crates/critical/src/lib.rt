// Where the slope of a scaled polynomial is zero: `critical_point` and `extremum` of poly.rs, and the place of a double root.
// It rests on `horner`, `refine`, `scaled` and `band`; `push` and `touching` rest on it.
#![tactic(auto, using(crate::proofs::Laws::laws), unfolding(crate::proofs::Laws::definitions))]

ghost use Rattle.std.specs.Prelude.{◌≡◌, ◌≤◌};
ghost use Rattle.facts.specs.Turns.{turns_of};
ghost use Rattle.band.specs.Band.{bare};
ghost use Rattle.critical.specs.Critical.{is_between_of, critical_next, critical_point_of, extremum_of, double_at};

use horner::{Polynomial, ValueSlope};

// (lo and hi by themselves, here and below, as in poly.rs and as C hands them in: pongewaru_critical_point, pongewaru_extremum.)
fn is_between(lo: f64, x: f64, hi: f64) -> bool
    ensures { result ≡ is_between_of lo x hi }
{
    (lo..=hi).contains(&x)
}

pub fn critical_point(poly: scaled::Scaled, y0: f64, lo: f64, hi: f64) -> f64
    requires { poly.d ≤ 4 }
    ensures { result ≡ critical_point_of poly y0 lo hi }
{
    critical(poly.polynomial(), y0, lo, hi)
}

// Newton's method on p', each step to a place within [lo, hi].
fn critical(p: Polynomial, y0: f64, lo: f64, hi: f64) -> f64
    ensures { result ≡ turns_of (critical_next p.f p.d lo hi) 4 y0 }
{
    let look = |y| {
        let v = p.derivs12(y);
        ValueSlope {
            value: v.d1,
            slope: v.d2,
        }
    };
    refine::newton(4, y0, look, |y| is_between(lo, y, hi))
}

// The critical point, if Newton's step from there is within the caller's band.
pub fn extremum(poly: scaled::Scaled, y: f64, lo: f64, hi: f64, tol: f64) -> Option<f64>
    requires { poly.d ≤ 4 }
    ensures { result ≡ extremum_of poly y lo hi tol }
{
    let at = critical_point(poly, y, lo, hi);
    let v = poly.polynomial().derivs12(at);
    (float::abs(v.d1) <= band::base_band(poly.unit, at, tol) * float::abs(v.d2)).then_some(at)
}

// Where a double root within the band about mid is.
pub fn double_at(p: Polynomial, unit: f64, mid: f64, tol: f64) -> f64
    ensures { result ≡ double_at (bare p.f p.d unit) mid tol }
{
    let reach = band::base_band(unit, mid, tol) + band::noise_within(p, mid, band::budget(p, mid));
    critical(p, mid, mid - reach, mid + reach)
}
