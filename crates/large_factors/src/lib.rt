// The large factors of factorize: real roots and quadratic factors as units, by falling size, down to the gap.
// It rests on `order`, `sqrt`, `horner`, `isolated` and `factors`; factorize rests on it.
#![tactic(auto)]

ghost use Rattle.std.specs.Prelude.{◌≡◌, ◌+◌, ◌≤◌, ◌<◌};
ghost use Rattle.order.specs.Order.{Places};
ghost use Rattle.factors.specs.Factors.{no_factors, degree_of};
ghost use Rattle.large_factors.specs.Large.{real_unit, quad_units_of, factor_units_of, ends_of, with_unit};
ghost use Rattle.large_factors.specs.Large.{large_from, large_of, no_units, added_of, all_added, in_order};

use factors::{Factors, Quad};

// A root al of the size m, where be is NaN, or a quadratic factor whose roots have the size m. (A NaN and no Option<f64>: the Rust takes a quadratic factor
// whose be is NaN for a root, so with_unit would test for None and for the NaN.)
#[derive(Clone, Copy)]
pub struct Unit {
    pub m: f64,
    pub al: f64,
    pub be: f64,
}

// The first n of `at`: fixed memory, as in the Rust.
#[derive(Clone, Copy)]
pub struct Units {
    pub at: [Unit; 4],
    pub n: usize,
}

impl Default for Units {
    ghost is_default = { λ u. u ≡ no_units };

    fn default() -> Units {
        let none = Unit {
            m: 0.0,
            al: 0.0,
            be: 0.0,
        };
        Units {
            at: [none; 4],
            n: 0,
        }
    }
}

impl Units {
    fn with(mut self, x: Unit) -> Units
        requires { self.n < 4 }
        ensures { result ≡ added_of self x }
    {
        self.at[self.n] = x;
        self.n += 1;
        self
    }

    #[tactic(auto, unfolding(crate::proofs::Added::nan_floats))]
    fn with_real(self, r: f64) -> Units
        requires { self.n < 4 }
        ensures { result ≡ added_of self (real_unit r) }
    {
        self.with(Unit {
            m: float::abs(r),
            al: r,
            be: f64::NAN,
        })
    }

    #[tactic(auto, using(crate::proofs::Added::quad_split, crate::proofs::Added::quad_whole))]
    fn with_quad(self, f: Quad) -> Units
        requires { self.n + 2 ≤ 4 }
        ensures { result ≡ all_added self (quad_units_of f) }
    {
        let Quad { al, be } = f;
        let disc = horner::discriminant(al, be);
        if disc > 0.0 {
            let q = isolated::far_root(al, disc);
            return self.with_real(q).with_real(be / q);
        }
        self.with(Unit {
            m: sqrt::sqrt(float::abs(be)),
            al,
            be,
        })
    }
}

#[tactic(auto, using(crate::proofs::Added::units))]
fn units_of(f: Factors) -> Units
    requires { degree_of f ≤ 4 }
    ensures { result ≡ all_added no_units (factor_units_of f) }
{
    let mut u = Units::default();
    for r in &f.lin[..f.nlin] {
        u = u.with_real(*r);
    }
    for q in &f.quad[..f.nquad] {
        u = u.with_quad(*q);
    }
    u
}

#[tactic(auto, unfolding(crate::specs::Large::ends_of))]
fn ends(x: Unit, degree: usize, want: usize, least: f64) -> bool
    ensures { result ≡ ends_of x degree want least }
{
    degree >= want || x.m < least || float::is_nan(x.m)
}

#[tactic(auto, unfolding(crate::specs::Large::with_unit))]
fn with_unit(large: Factors, x: Unit) -> Factors
    ensures { result ≡ with_unit large x }
{
    if float::is_nan(x.be) {
        large.push_lin(x.al)
    } else {
        large.push_quad(x.al, x.be)
    }
}

// The units in this order, down to the one that ends the search.
#[tactic(auto, using(crate::proofs::Taken::taken))]
fn take_large(u: Units, order: [usize; 4], want: usize, least: f64) -> Factors
    requires n_high { u.n ≤ 4 }
    requires places { Places order }
    ensures { result ≡ large_from want least no_factors (in_order u.at order u.n) }
{
    let mut out = Factors::default();
    for i in &order[..u.n] {
        let x = u.at[*i];
        if ends(x, out.degree(), want, least) {
            return out;
        }
        out = with_unit(out, x);
    }
    out
}

// The factors of the `want` largest roots, as far as the units give them.
#[tactic(auto, using(crate::proofs::Taken::units_fit))]
pub fn large(f: Factors, want: usize, threshold: f64) -> Factors
    requires { degree_of f ≤ 4 }
    ensures { result ≡ large_of f want threshold }
{
    let u = units_of(f);
    let order = order::falling(u.at.map(|x| x.m), u.n);
    take_large(u, order, want, threshold * f64::EPSILON)
}
