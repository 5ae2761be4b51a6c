// Scaled::finish of poly.rs: the candidates in order, the simple ones polished, and runs of them within the band joined.
// It rests on `order`, `roots`, `polish` and `band`; the lists and the inquiry rest on it.
#![tactic(auto)]

ghost use Rattle.std.specs.Prelude.{◌≡◌, ◌+◌, ◌^◌, ◌≤◌, ◌<◌};
ghost use Rattle.float.specs.Methods.{min_of};
ghost use Rattle.roots.specs.Roots.{list_of, roots_of};
ghost use Rattle.roots.specs.Listed.{multiplicities, Fits};
ghost use Rattle.finish.specs.Finish.{by_value, below_of, above_of, ordered_at, polished_at, is_near_of, join_of, joined_of, finish_of};
ghost use Rattle.finish.specs.Places.{place_of, places_polished};
ghost use Rattle.finish.specs.Run.{next_run};

use roots::{RealRoot, Roots};
use scaled::Scaled;

// A scaled polynomial, and the tolerance of its band. (Lent, as the places are: what was just made
// is not copied.)
#[derive(Clone, Copy)]
struct Banded<'a> {
    poly: &'a Scaled,
    tol: f64,
    ghost degree: { poly.now.d ≤ 4 },
}

// Places in order.
#[derive(Clone, Copy)]
struct Placed<'a> {
    roots: &'a Roots,
    ghost fits: { Fits roots.now },
}

// The places of the runs that have ended, and the run at hand.
#[derive(Clone, Copy)]
struct Run {
    out: Roots,
    at: RealRoot,
}

// The places in the order of their values.
fn in_order(c: &Roots) -> Roots
    requires { Fits c.now }
    ensures { (list_of result ≡ by_value (list_of c.now)) × (result.len ≡ c.now.len) }
{
    // (Not by `map`, which takes the array by value.)
    let values = std::array::from_fn(|k| c.root[k].value);
    let at = order::sorted(values, c.len, float::total_le);
    Roots {
        root: std::array::from_fn(|k| c.root[at[k]]),
        len: c.len,
    }
}

// The same by value.
pub fn ordered(c: Roots) -> Roots
    requires { c.len ≤ 4 }
    ensures { (list_of result ≡ by_value (list_of c)) × (result.len ≡ c.len) }
{
    if c.len < 2 {
        return c;
    }
    in_order(&c)
}

impl Placed<'_> {
    // The distance to the nearer neighbour: there is none below the first place and above the last.
    #[tactic(auto, using(crate::proofs::Places::gaps))]
    fn gap(&self, k: usize) -> f64
        requires { k < self.now.roots.now.len }
        ensures { result ≡ min_of (below_of (list_of self.now.roots.now) k) (above_of (list_of self.now.roots.now) k) }
    {
        let o = self.roots;
        let here = o.root[k].value;
        let below = if k > 0 {
            here - o.root[k - 1].value
        } else {
            f64::INFINITY
        };
        let above = if k + 1 < o.len {
            o.root[k + 1].value - here
        } else {
            f64::INFINITY
        };
        float::min(below, above)
    }
}

// The mean of two places, weighted by their multiplicities.
#[tactic(auto, unfolding(crate::specs::Finish::join_of))]
fn join(a: RealRoot, b: RealRoot) -> RealRoot
    requires { a.multiplicity + b.multiplicity < 2 ^ 32 }
    ensures { result ≡ join_of a b }
{
    let total = a.multiplicity + b.multiplicity;
    let sum = a.value * a.multiplicity as f64 + b.value * b.multiplicity as f64;
    RealRoot::new(sum / total as f64, total)
}

impl Banded<'_> {
    // A root at this gap from its nearest neighbour, polished where it is simple.
    #[tactic(auto, unfolding(crate::specs::Finish::polished_at))]
    fn polished_by(&self, r: RealRoot, gap: f64) -> RealRoot
        ensures { result ≡ polished_at 4 self.now.poly.now (place_of r gap) }
    {
        if r.multiplicity != 1 {
            return RealRoot::new(r.value, r.multiplicity);
        }
        let y = polish::polish(self.poly.polynomial(), r.value, gap);
        RealRoot::new(y, 1)
    }

    // Place k, by its gap before polishing.
    #[tactic(auto, using(crate::proofs::Places::polished_is))]
    fn place_polished(&self, o: &Placed, k: usize) -> RealRoot
        requires { k < o.now.roots.now.len }
        ensures { result ≡ polished_at 4 self.now.poly.now (ordered_at (list_of o.now.roots.now) k) }
    {
        self.polished_by(o.roots.root[k], o.gap(k))
    }

    // Whether the next place is within the band of y.
    #[tactic(auto, unfolding(crate::specs::Finish::is_near_of))]
    fn is_near(&self, y: f64, next: f64) -> bool
        ensures { result ≡ is_near_of self.now.poly.now y next self.now.tol }
    {
        band::within_band(*self.poly, 0.5 * (next - y), 0.5 * (next + y), self.tol)
    }

    // The next place b joins the run, or ends it and begins the next one.
    #[tactic(auto, using(crate::proofs::Runs::next))]
    fn next_run(&self, run: Run, b: RealRoot) -> Run
        requires { run.at.multiplicity + b.multiplicity < 2 ^ 32 }
        ensures { result ≡ next_run self.now.poly.now run b self.now.tol }
    {
        let out = run.out;
        let a = run.at;
        if self.is_near(a.value, b.value) {
            let at = join(a, b);
            return Run { out, at };
        }
        let more = out.keep_root(a);
        Run { out: more, at: b }
    }

    // Each place is polished when its turn comes, and joined.
    fn joined(&self, o: &Placed) -> Roots
        requires { multiplicities (list_of o.now.roots.now) < 2 ^ 32 }
        ensures { result ≡ roots_of (joined_of self.now.poly.now self.now.tol (places_polished self.now.poly.now o.now.roots.now)) }
    {
        let out = Roots::default();
        let n = o.roots.len;
        if n == 0 {
            return out;
        }
        let mut run = Run {
            out,
            at: self.place_polished(o, 0),
        };
        for k in 1..n {
            run = self.next_run(run, self.place_polished(o, k));
        }
        run.out.keep_root(run.at)
    }
}

// Of a polynomial and candidates that are lent. The u32 sums do not overflow: what the candidates'
// multiplicities add up to is a u32.
pub fn finish_lent(poly: &Scaled, c: &Roots, tol: f64) -> Roots
    requires poly_d_high { poly.now.d ≤ 4 }
    requires c_fits { Fits c.now × (multiplicities (list_of c.now) < 2 ^ 32) }
    ensures { result ≡ roots_of (finish_of poly.now (list_of c.now) tol) }
{
    let b = Banded { poly, tol };
    // None and one are in order.
    if c.len <= 1 {
        return b.joined(&Placed { roots: c });
    }
    let roots = &in_order(c);
    b.joined(&Placed { roots })
}

// The same of both by value.
pub fn finish(poly: Scaled, c: Roots, tol: f64) -> Roots
    requires poly_d_high { poly.d ≤ 4 }
    requires c_fits { (c.len ≤ 4) × (multiplicities (list_of c) < 2 ^ 32) }
    ensures { result ≡ roots_of (finish_of poly (list_of c) tol) }
{
    finish_lent(&poly, &c, tol)
}
