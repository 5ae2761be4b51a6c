// `polish` of poly.rs: Newton's method on a simple root, by the compensated value. It rests on `horner` (evaluation), `refine` (two of the tests), `float` and
// `facts`; `finish` and the polishing theorem rest on it.
#![tactic(auto, using(crate::proofs::Laws::laws), unfolding(crate::proofs::Laws::definitions))]

ghost use Rattle.std.specs.Prelude.{◌≡◌};
ghost use Rattle.polish.specs.Polish.{is_long_of, is_small_of, polish_of};

use horner::Polynomial;

// The step is beyond a quarter of the gap, or is a NaN.
fn is_long(step: f64, gap: f64) -> bool
    ensures { result ≡ is_long_of step gap }
{
    float::abs(step) > 0.25 * gap || float::is_nan(step)
}

// The step is within rounding of y.
fn is_small(step: f64, y: f64) -> bool
    ensures { result ≡ is_small_of step y }
{
    float::abs(step) <= f64::EPSILON * float::abs(y)
}

// (A loop of its own beside refine::newton: the step too is tested, against the gap and the place, and a small one ends it at the new place. newton would take
// three more tests for these, which its other two callers leave empty.)
pub fn polish(p: Polynomial, y0: f64, gap: f64) -> f64
    ensures { result ≡ polish_of 4 p.f p.d gap y0 }
{
    let mut y = y0;
    let mut at = p.value_slope_compensated(y);
    for _ in 0..4u32 {
        if refine::flat(at.value, at.slope) {
            return y;
        }
        let step = at.value / at.slope;
        if is_long(step, gap) {
            return y;
        }
        let next = y - step;
        if next == y {
            return y;
        }
        let there = p.value_slope_compensated(next);
        if refine::no_gain(at.value, there.value) {
            return y;
        }
        if is_small(step, next) {
            return next;
        }
        y = next;
        at = there;
    }
    y
}
