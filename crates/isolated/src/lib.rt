// The roots of two quadratics, `isolated_root` of poly.rs, on all bits: their discriminants, and a real root that is far from the others; and `peel_root`, a
// quartic divided by such a root. It rests on the leaves, `horner`, `refine`, `cubic` and `quartic`; `large_factors`, `factorize` and `push` rest on it.
#![tactic(auto)]

ghost use Rattle.std.specs.Prelude.{◌≡◌};
ghost use Rattle.isolated.specs.Isolated.{disc_of, far_by, far_root_of, root_pair_of, dist_of, least_of, greatest_of, is_better_of, judged_of};
ghost use Rattle.isolated.specs.Isolated.{best_root_of, isolated_of, isolated_root_of, peel_root_of, peel_systems_of};

use tally::Tallied;

// A root as (re, im).
#[derive(Clone, Copy)]
struct Complex {
    re: f64,
    im: f64,
}

// The best root so far, and the squared distance of the nearest other.
#[derive(Clone, Copy)]
struct Best {
    far: f64,
    root: f64,
}

// A discriminant, and the square root of its size.
#[derive(Clone, Copy)]
pub struct Disc {
    pub disc: f64,
    pub root: f64,
}

// Of y^2 + al*y + be. (al and be by themselves, here, in root_pair and in QuarticFactor, as C hands them to discriminant and isolated_root: the struct of
// both, Quad, is of `factors`, on which this crate does not rest.)
#[tactic(auto, unfolding(crate::specs::Isolated::disc_of))]
pub fn disc_of(al: f64, be: f64) -> Disc
    ensures { result ≡ disc_of al be }
{
    let disc = horner::discriminant(al, be);
    Disc {
        disc,
        root: sqrt::sqrt(float::abs(disc)),
    }
}

// Cancellation-free: of the two real roots of y^2 + al*y + be the one of larger size, q = -(al + sign(al)*sqrt(disc))/2. The other is be / q.
#[tactic(auto, unfolding(crate::specs::Isolated::far_by))]
pub fn far_by(al: f64, root: f64) -> f64
    ensures { result ≡ far_by al root }
{
    -0.5 * (al + float::copysign(root, al))
}

#[tactic(auto, unfolding(crate::specs::Isolated::far_root_of, crate::specs::Isolated::far_by))]
pub fn far_root(al: f64, disc: f64) -> f64
    ensures { result ≡ far_root_of al disc }
{
    far_by(al, sqrt::sqrt(disc))
}

#[tactic(auto, using(crate::proofs::Laws::real_pair, crate::proofs::Laws::complex_pair))]
fn root_pair(al: f64, be: f64, s: Disc) -> [Complex; 2]
    requires { s ≡ disc_of al be }
    ensures { result ≡ root_pair_of al be }
{
    if s.disc >= 0.0 {
        let q = far_by(al, s.root);
        let other = cubic::over_or(be, q, 0.0);
        return [Complex { re: q, im: 0.0 }, Complex { re: other, im: 0.0 }];
    }
    let half = 0.5 * s.root;
    let re = -0.5 * al;
    [Complex { re, im: half }, Complex { re, im: -half }]
}

#[tactic(auto, unfolding(float::specs::Methods::powi_of))]
fn dist(x: Complex, y: Complex) -> f64
    ensures { result ≡ dist_of x.re x.im y.re y.im }
{
    let a = x.re - y.re;
    let b = x.im - y.im;
    a * a + b * b
}

// (By reference, here and in greatest: so the loop is unrolled, which it isn't over the array's own items.)
fn least(near: [f64; 3]) -> f64
    ensures { result ≡ least_of near }
{
    near.iter().copied().fold(f64::INFINITY, float::min)
}

fn greatest(apart: [f64; 3]) -> f64
    ensures { result ≡ greatest_of apart }
{
    apart.iter().copied().fold(0.0, float::max)
}

#[tactic(auto, unfolding(crate::specs::Isolated::is_better_of))]
fn is_better(best: Option<Best>, iso: f64, spread: f64) -> bool
    ensures { result ≡ is_better_of best iso spread }
{
    16.0 * spread < iso && best.is_none_or(|b| iso > b.far)
}

// The root z at these distances from the three others, which are `apart` from one another.
#[tactic(auto, unfolding(crate::specs::Isolated::judged_of))]
fn judge(best: Option<Best>, z: Complex, near: [f64; 3], apart: [f64; 3]) -> Option<Best>
    ensures { result ≡ judged_of best z.re z.im (least_of near) (greatest_of apart) }
{
    if z.im != 0.0 {
        return best;
    }
    let iso = least(near);
    if is_better(best, iso, greatest(apart)) {
        return Some(Best {
            far: iso,
            root: z.re,
        });
    }
    best
}

// The four roots are written out: which of the six distances are a root's own differs at each, and tables of them would be longer.
#[tactic(auto, using(crate::proofs::Laws::in_turn))]
fn best_root(quads: quartic::QuarticFactor, first: Disc, second: Disc) -> Option<Best>
    requires { (first ≡ disc_of quads.al quads.be) × (second ≡ disc_of quads.ga quads.de) }
    ensures { result ≡ best_root_of quads }
{
    let [z0, z1] = root_pair(quads.al, quads.be, first);
    let [z2, z3] = root_pair(quads.ga, quads.de, second);
    let d01 = dist(z0, z1);
    let d02 = dist(z0, z2);
    let d03 = dist(z0, z3);
    let d12 = dist(z1, z2);
    let d13 = dist(z1, z3);
    let d23 = dist(z2, z3);
    let b0 = judge(None, z0, [d01, d02, d03], [d12, d13, d23]);
    let b1 = judge(b0, z1, [d01, d12, d13], [d02, d03, d23]);
    let b2 = judge(b1, z2, [d02, d12, d23], [d01, d03, d13]);
    judge(b2, z3, [d03, d13, d23], [d01, d02, d12])
}

// Of two quadratics: an isolated root, if there is one, and their discriminants.
#[derive(Clone, Copy)]
pub struct Pairing {
    pub far: Option<f64>,
    pub first: Disc,
    pub second: Disc,
}

#[tactic(auto, using(crate::proofs::Laws::mapped, crate::proofs::Laws::is_lone))]
pub fn isolated(quads: quartic::QuarticFactor) -> Pairing
    ensures { result ≡ isolated_of quads }
{
    let first = disc_of(quads.al, quads.be);
    let second = disc_of(quads.ga, quads.de);
    let far = best_root(quads, first, second).map(|b| b.root);
    Pairing { far, first, second }
}

#[tactic(auto, unfolding(crate::specs::Isolated::isolated_of))]
pub fn isolated_root(quads: quartic::QuarticFactor) -> Option<f64>
    ensures { result ≡ isolated_root_of quads }
{
    isolated(quads).far
}

// (y - r) * (y^3 + h2*y^2 + h1*y + h0)
#[derive(Clone, Copy)]
pub struct Peeled {
    pub r: f64,
    pub h2: f64,
    pub h1: f64,
    pub h0: f64,
}

// (The coefficients one by one, as in poly.rs and as C hands them in.)
#[tactic(auto, unfolding(crate::specs::Isolated::peel_root_of, crate::specs::Isolated::peel_systems_of, crate::specs::Isolated::peel_start_of))]
pub fn peel_root(b: f64, c: f64, d: f64, e: f64, r: f64) -> Tallied<Peeled>
    ensures value { result.value ≡ peel_root_of b c d e r }
    ensures systems { result.systems ≡ peel_systems_of b c d e r }
{
    let h2 = b + r;
    let h1 = c + r * h2;
    let h0 = d + r * h1;
    let refined = refine::refine_peel(b, c, d, e, [r, h2, h1, h0]);
    let [r, h2, h1, h0] = refined.value;
    refined.with(Peeled { r, h2, h1, h0 })
}
