// Newton's method on square systems: `refine` of poly.rs at any size, for the factors of a cubic, the two quadratics of a quartic, and a quartic with one
// root peeled off; and on one number, `newton`, for `newton_cubic` and `critical_point`. It rests on `square` (elimination), `horner` (evaluation), `float`,
// `facts` and `tally`; factoring and `critical` rest on it.
#![tactic(auto, using(crate::proofs::Laws::laws), unfolding(crate::proofs::Laws::definitions))]

ghost use Rattle.std.specs.Prelude.{◌≡◌, ◌≤◌, Float, Bool};
ghost use Rattle.refine.specs.Refine.{System, over_of, weighted_of, is_settled_of, weigh_row_of, weigh_rows_of, stepped_of, trial_of, no_less_of};
ghost use Rattle.refine.specs.Refine.{refine_of, refine_systems_of};
ghost use Rattle.refine.specs.Systems.{cubic_system, quartic_system, peel_system};
ghost use Rattle.refine.specs.Weighed.{weigh_of};
ghost use Rattle.facts.specs.Turns.{turns_of};
ghost use Rattle.refine.specs.Newton.{flat_of, no_gain_of, Gives, newton_by, newton_cubic_of};

use float::abs;
use horner::{Polynomial, ValueSlope};
use tally::Tallied;

// 2^-53
const HALF_EPSILON: f64 = 1.1102230246251565e-16;

// A residual over the magnitude of its terms, where that is above zero.
fn over(r: f64, m: f64) -> f64
    ensures { result ≡ over_of r m }
{
    if m > 0.0 { r / m } else { r }
}

// (over at each entry, but with one test of m for the row, where a call of over at each would do that work again.)
fn weigh_row<const N: usize>(row: &mut [f64; N], m: f64)
    ensures { row.new ≡ weigh_row_of row.old m }
{
    if m > 0.0 {
        for v in row.iter_mut() {
            *v /= m;
        }
    }
}

// (By index: of the rows that iter_mut().zip(..) lends a proof knows no entry.)
fn weigh_rows<const N: usize>(j: &mut [[f64; N]; N], mag: &[f64; N])
    ensures { j.new ≡ weigh_rows_of N j.old mag.now }
{
    for i in 0..N {
        weigh_row(&mut j[i], mag[i]);
    }
}

// At the rounding floor already, or not finite.
fn is_settled(current: f64) -> bool
    ensures { result ≡ is_settled_of current }
{
    !(current > HALF_EPSILON && float::is_finite(current))
}

// The norm `next` is no smaller than `current`, or is a NaN.
fn no_less(current: f64, next: f64) -> bool
    ensures { result ≡ no_less_of current next }
{
    next >= current || float::is_nan(next)
}

// N equations in N unknowns.
trait Equations<const N: usize> {
    ghost system: { Self → System };

    // The residuals at x, and the magnitudes of their terms.
    fn residuals(&self, x: &[f64; N]) -> ([f64; N], [f64; N])
        ensures residuals { result.0 ≡ (system self.now).res x.now }
        ensures magnitudes { result.1 ≡ (system self.now).mag x.now };

    // The rows of derivatives at x.
    fn jacobian(&self, x: &[f64; N]) -> [[f64; N]; N]
        ensures { result ≡ (system self.now).jac x.now };
}

#[tactic(auto, using(float::proofs::Made::made_by), unfolding(crate::specs::Refine::weighted_of, crate::specs::Refine::over_of))]
fn weighted<const N: usize>(r: &[f64; N], mag: &[f64; N]) -> [f64; N]
    ensures { result ≡ weighted_of N r.now mag.now }
{
    // (As slices, here and in stepped: so what the closure reads is known to the proof.)
    let (r, mag) = (&r[..], &mag[..]);
    std::array::from_fn(|i| over(r[i], mag[i]))
}

// The equations at a place: the magnitudes of their terms, the weighted residuals and their norm.
#[derive(Clone, Copy)]
struct Weighed<const N: usize> {
    mag: [f64; N],
    w: [f64; N],
    norm: f64,
}

// In line at both its calls: so it costs none.
#[inline(always)]
fn weigh<const N: usize, S: Equations<N>>(s: &S, x: &[f64; N]) -> Weighed<N>
    ensures { result ≡ weigh_of N ((S.system s.now).res x.now) ((S.system s.now).mag x.now) }
{
    let (r, mag) = s.residuals(x);
    let w = weighted(&r, &mag);
    let norm = square::sizes(&w, 0.0);
    Weighed { mag, w, norm }
}

#[tactic(auto, using(float::proofs::Made::made_by))]
fn stepped<const N: usize>(x: &[f64; N], step: &[f64; N]) -> [f64; N]
    ensures { result ≡ stepped_of N x.now step.now }
{
    let (x, step) = (&x[..], &step[..]);
    std::array::from_fn(|i| x[i] - step[i])
}

// The place to try next, from the rows of derivatives j.
fn trial<const N: usize>(x: &[f64; N], at: &Weighed<N>, j: [[f64; N]; N]) -> Option<[f64; N]>
    ensures { result ≡ trial_of N x.now at.now.w at.now.mag j.entry }
{
    let mut rows = j;
    weigh_rows(&mut rows, &at.mag);
    let step = square::solve_square(rows, at.w, 0.0)?;
    if !float::all_finite(&step) {
        return None;
    }
    Some(stepped(x, &step))
}

// At most four equations: a matrix of any size would not fit in memory.
fn refine<const N: usize, S: Equations<N>>(s: &S, x0: [f64; N]) -> Tallied<[f64; N]>
    requires { N ≤ 4 }
    ensures value { result.value ≡ refine_of N (S.system s.now) x0.entry }
    ensures systems { result.systems ≡ refine_systems_of N (S.system s.now) x0.entry }
{
    let mut x = x0;
    let mut at = weigh(s, &x);
    let mut systems = 0;
    for _ in 0..8u32 {
        if is_settled(at.norm) {
            return Tallied { value: x, systems };
        }
        systems += 1;
        let Some(next) = trial(&x, &at, s.jacobian(&x)) else {
            return Tallied { value: x, systems };
        };
        let there = weigh(s, &next);
        if no_less(at.norm, there.norm) {
            return Tallied { value: x, systems };
        }
        x = next;
        at = there;
    }
    Tallied { value: x, systems }
}

// y^3 + b*y^2 + c*y + d = (y - x0) * (y^2 + x1*y + x2). (Residuals, magnitudes and rows are written out, here and below: each entry is a formula of its own.)
#[derive(Clone, Copy)]
struct Cubic {
    b: f64,
    c: f64,
    d: f64,
}

impl Equations<3> for Cubic {
    ghost system = { λ s. cubic_system s.b s.c s.d };

    fn residuals(&self, x: &[f64; 3]) -> ([f64; 3], [f64; 3]) {
        let p = x[0] * x[1];
        (
            [
                x[1] - x[0] - self.b,
                x[2] - p - self.c,
                -x[0] * x[2] - self.d,
            ],
            [
                abs(x[1]) + abs(x[0]) + abs(self.b),
                abs(x[2]) + abs(p) + abs(self.c),
                abs(x[0] * x[2]) + abs(self.d),
            ],
        )
    }

    fn jacobian(&self, x: &[f64; 3]) -> [[f64; 3]; 3] {
        [[-1.0, 1.0, 0.0], [-x[1], -x[0], 1.0], [-x[2], 0.0, -x[0]]]
    }
}

// (The coefficients one by one, here and below, as in poly.rs and as C hands them in.)
pub fn refine_cubic(b: f64, c: f64, d: f64, x0: [f64; 3]) -> Tallied<[f64; 3]>
    ensures value { result.value ≡ refine_of 3 (cubic_system b c d) x0 }
    ensures systems { result.systems ≡ refine_systems_of 3 (cubic_system b c d) x0 }
{
    refine(&Cubic { b, c, d }, x0)
}

// y^4 + b*y^3 + c*y^2 + d*y + e = (y^2 + x0*y + x1) * (y^2 + x2*y + x3)
#[derive(Clone, Copy)]
struct Quartic {
    b: f64,
    c: f64,
    d: f64,
    e: f64,
}

impl Equations<4> for Quartic {
    ghost system = { λ s. quartic_system s.b s.c s.d s.e };

    fn residuals(&self, x: &[f64; 4]) -> ([f64; 4], [f64; 4]) {
        let p = x[0] * x[2];
        let q = x[0] * x[3];
        let s = x[1] * x[2];
        let t = x[1] * x[3];
        (
            [
                x[0] + x[2] - self.b,
                x[1] + x[3] + p - self.c,
                q + s - self.d,
                t - self.e,
            ],
            [
                abs(x[0]) + abs(x[2]) + abs(self.b),
                abs(x[1]) + abs(x[3]) + abs(p) + abs(self.c),
                abs(q) + abs(s) + abs(self.d),
                abs(t) + abs(self.e),
            ],
        )
    }

    fn jacobian(&self, x: &[f64; 4]) -> [[f64; 4]; 4] {
        [
            [1.0, 0.0, 1.0, 0.0],
            [x[2], 1.0, x[0], 1.0],
            [x[3], x[2], x[1], x[0]],
            [0.0, x[3], 0.0, x[1]],
        ]
    }
}

pub fn refine_quartic(b: f64, c: f64, d: f64, e: f64, x0: [f64; 4]) -> Tallied<[f64; 4]>
    ensures value { result.value ≡ refine_of 4 (quartic_system b c d e) x0 }
    ensures systems { result.systems ≡ refine_systems_of 4 (quartic_system b c d e) x0 }
{
    refine(&Quartic { b, c, d, e }, x0)
}

// y^4 + b*y^3 + c*y^2 + d*y + e = (y - x0) * (y^3 + x1*y^2 + x2*y + x3). (The coefficients of Quartic once more: a type has
// one system of four equations, so a struct for both would stand in a newtype for each.)
#[derive(Clone, Copy)]
struct Peel {
    b: f64,
    c: f64,
    d: f64,
    e: f64,
}

impl Equations<4> for Peel {
    ghost system = { λ s. peel_system s.b s.c s.d s.e };

    fn residuals(&self, x: &[f64; 4]) -> ([f64; 4], [f64; 4]) {
        let p = x[0] * x[1];
        let q = x[0] * x[2];
        (
            [
                x[1] - x[0] - self.b,
                x[2] - p - self.c,
                x[3] - q - self.d,
                -x[0] * x[3] - self.e,
            ],
            [
                abs(x[1]) + abs(x[0]) + abs(self.b),
                abs(x[2]) + abs(p) + abs(self.c),
                abs(x[3]) + abs(q) + abs(self.d),
                abs(x[0] * x[3]) + abs(self.e),
            ],
        )
    }

    fn jacobian(&self, x: &[f64; 4]) -> [[f64; 4]; 4] {
        [
            [-1.0, 1.0, 0.0, 0.0],
            [-x[1], -x[0], 1.0, 0.0],
            [-x[2], 0.0, -x[0], 1.0],
            [-x[3], 0.0, 0.0, -x[0]],
        ]
    }
}

pub fn refine_peel(b: f64, c: f64, d: f64, e: f64, x0: [f64; 4]) -> Tallied<[f64; 4]>
    ensures value { result.value ≡ refine_of 4 (peel_system b c d e) x0 }
    ensures systems { result.systems ≡ refine_systems_of 4 (peel_system b c d e) x0 }
{
    refine(&Peel { b, c, d, e }, x0)
}

// ---- one number

// Nothing to do: the value or the slope is zero.
pub fn flat(fy: f64, dy: f64) -> bool
    ensures { result ≡ flat_of fy dy }
{
    fy == 0.0 || dy == 0.0
}

// The value nf is no smaller in size than fy, or is a NaN.
pub fn no_gain(fy: f64, nf: f64) -> bool
    ensures { result ≡ no_gain_of fy nf }
{
    abs(nf) >= abs(fy) || float::is_nan(nf)
}

// Newton's method from y0: at most so many turns, each to a place that is allowed and where the value is smaller. In line at its calls, as weigh.
#[inline(always)]
pub fn newton<F: Fn(f64) -> ValueSlope, G: Fn(f64) -> bool>(
    turns: u32,
    y0: f64,
    look: F,
    allows: G,
) -> f64
    requires look { F.IsAlwaysCallable look }
    requires allows { G.IsAlwaysCallable allows }
    ensures { (f : Float → ValueSlope) (p : Float → Bool) → Gives (F.post look) f → Gives (G.post allows) p → result ≡ turns_of (newton_by f p) turns y0 }
{
    let mut y = y0;
    let mut at = look(y);
    for _ in 0..turns {
        if flat(at.value, at.slope) {
            return y;
        }
        let next = y - at.value / at.slope;
        if !allows(next) {
            return y;
        }
        let there = look(next);
        if no_gain(at.value, there.value) {
            return y;
        }
        y = next;
        at = there;
    }
    y
}

// The cubic stands as [c0, c1, c2, c3, 0].
#[tactic(auto, using(crate::proofs::Laws::as_cubic))]
pub fn newton_cubic(p: [f64; 5], y0: f64) -> f64
    ensures { result ≡ newton_cubic_of p y0 }
{
    let cubic = Polynomial { f: p, d: 3 };
    newton(4, y0, |y| cubic.value_slope(y), |_| true)
}
