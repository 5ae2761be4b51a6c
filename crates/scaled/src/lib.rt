// Scaled::new of poly.rs: a polynomial in the variable y = x / 2^e, in which no coefficient is larger than the leading one in size.
// It rests on the leaves ldexp, exponent and L; gaps between root sizes, factoring and polishing rest on it.
#![tactic(auto)]

ghost use Rattle.std.specs.Prelude.{◌≡◌, ◌≤◌, ◌<◌, ◌*◌, ◌^◌, nat_abs};
ghost use Rattle.scaled.specs.Exponent.{Least, scale_exponent_of};
ghost use Rattle.scaled.specs.Scaled.{top_of, shift_of, coefficient_of, coefficients_of, monic_at, monic_of};
ghost use Rattle.scaled.specs.Scaled.{sizes_of, log_size_of, log_sizes_of, scaled_of, with_logs_of};

use decode::Digits;
use horner::Polynomial;

// a(x) of degree d in y = x / 2^e: f is a times powers of two, g is f / f_d, lg the logarithms of f's sizes, and unit is one unit of x in y. By value, side by
// side, as document 01 has Scaled.
// d has no bound here, since an inquiry holds a Scaled and takes any value of it: a narrower type would ask more of its callers.
#[derive(Clone, Copy)]
pub struct Scaled {
    pub f: [f64; 5],
    pub g: [f64; 5],
    pub lg: [f64; 5],
    pub d: usize,
    pub e: i32,
    pub unit: f64,
}

// What places the coefficients in y: the degree, the exponent e, and the exponent that the leading coefficient has in y.
#[derive(Clone, Copy)]
struct Shift {
    d: usize,
    e: i32,
    top: i32,
    ghost degree: { d ≤ 4 },
    ghost e_size: { nat_abs e ≤ 2 ^ 13 },
    ghost top_size: { nat_abs top ≤ 2 ^ 16 },
}

// e + 2098 for one coefficient alone, j places below the leading one: t says how far apart the exponents are, and a comparison of the digits whether one more
// is needed.
fn reach(lead: Digits, n: Digits, j: u64) -> u64
    requires j_in_range { (0 < j) × (j ≤ 4) }
    ensures { Least (lead.w * 2 ^ lead.k) (n.w * 2 ^ n.k) j result }
{
    let t = n.k + 2098 * j - lead.k;
    if n.w <= lead.w {
        return t.div_ceil(j);
    }
    (t + 1).div_ceil(j)
}

// e: the largest that one of the coefficients below the leading one needs. One without digits, as a zero, needs nothing; where none needs any, e is 0.
#[tactic(auto, using(crate::proofs::Best::best))]
fn exponent_for(p: &Polynomial) -> i32
    ensures { result ≡ scale_exponent_of p.now.f p.now.d }
{
    let Some(lead) = decode::normal_of(p.f[p.d]) else {
        return 0;
    };
    let mut k = 0;
    for i in 0..p.d {
        if let Some(n) = decode::normal_of(p.f[i]) {
            k = std::cmp::max(k, reach(lead, n, (p.d - i) as u64));
        }
    }
    if k == 0 {
        return 0;
    }
    k as i32 - 2098
}

// The same by value.
pub fn scale_exponent(p: Polynomial) -> i32
    ensures { result ≡ scale_exponent_of p.f p.d }
{
    exponent_for(&p)
}

// The leading coefficient x has this exponent in y.
#[tactic(auto, using(crate::proofs::Signed::sum, crate::proofs::Digits::exponent_small))]
fn top_of(x: f64, e: i32, d: usize) -> i32
    requires e_size { nat_abs e ≤ 2 ^ 13 }
    requires d_high { d ≤ 4 }
    ensures { (result ≡ top_of x e d) × (nat_abs result ≤ 2 ^ 16) }
{
    decode::exponent(x) + e * d as i32
}

impl Shift {
    #[tactic(auto, using(crate::proofs::Signed::difference), unfolding(crate::specs::Scaled::shift_of))]
    fn at(self, i: usize) -> i32
        requires { i ≤ 4 }
        ensures { result ≡ shift_of self.e self.top i }
    {
        self.e * i as i32 - self.top
    }

    #[tactic(auto, using(crate::proofs::Signed::read), unfolding(crate::specs::Scaled::coefficient_of))]
    fn coefficient(self, a: &[f64; 5], i: usize) -> f64
        ensures { result ≡ coefficient_of a.now self.d self.e self.top i }
    {
        if i <= self.d {
            return ldexp::ldexp(a[i], self.at(i));
        }
        0.0
    }

    #[tactic(auto, using(float::proofs::Made::made_by), unfolding(crate::specs::Scaled::coefficients_of))]
    fn coefficients(self, a: &[f64; 5]) -> [f64; 5]
        ensures { result ≡ coefficients_of a.now self.d self.e self.top }
    {
        std::array::from_fn(|i| self.coefficient(a, i))
    }

    #[tactic(auto, using(crate::proofs::Signed::read, crate::proofs::Built::no_log), unfolding(crate::specs::Scaled::log_size_of))]
    fn log_size(self, l: f64, i: usize) -> f64
        ensures { result ≡ log_size_of l self.d self.e self.top i }
    {
        if i <= self.d {
            return l + self.at(i) as f64;
        }
        f64::NEG_INFINITY
    }

    #[tactic(auto, using(crate::proofs::Built::no_logs))]
    fn log_sizes(self, a: &[f64; 5]) -> [f64; 5]
        ensures { result ≡ log_sizes_of a.now self.d self.e self.top }
    {
        if self.d < 3 {
            return [f64::NEG_INFINITY; 5];
        }
        let l = log2::log2_five(sizes(*a));
        std::array::from_fn(|i| self.log_size(l[i], i))
    }
}

#[tactic(auto, unfolding(crate::specs::Scaled::monic_at))]
fn monic_at(p: &Polynomial, i: usize) -> f64
    ensures { result ≡ monic_at p.now.f p.now.d i }
{
    if i < p.d {
        return p.f[i] / p.f[p.d];
    }
    if i == p.d {
        return 1.0;
    }
    0.0
}

#[tactic(auto, using(float::proofs::Made::made_by), unfolding(crate::specs::Scaled::monic_of))]
fn monic(p: &Polynomial) -> [f64; 5]
    ensures { result ≡ monic_of p.now.f p.now.d }
{
    std::array::from_fn(|i| monic_at(p, i))
}

#[tactic(auto, unfolding(crate::specs::Scaled::sizes_of))]
fn sizes(a: [f64; 5]) -> [f64; 5]
    ensures { result ≡ sizes_of a }
{
    a.map(float::abs)
}

impl Scaled {
    // f(y), for the evaluations.
    pub fn polynomial(self) -> Polynomial
        requires { self.d ≤ 4 }
        ensures { (result.f ≡ self.f) × (result.d ≡ self.d) }
    {
        let f = self.f;
        Polynomial { f, d: self.d }
    }

    // With the logarithms that a list of degree l has: below 3 it has none.
    #[tactic(auto, using(crate::proofs::Built::built), unfolding(crate::specs::Scaled::scaled_of, crate::specs::Scaled::with_logs_of))]
    pub fn with_logs(p: Polynomial, l: usize) -> Scaled
        requires { l ≤ 4 }
        ensures { result ≡ with_logs_of p.f p.d l }
    {
        let a = &p.f;
        let d = p.d;
        let e = exponent_for(&p);
        let top = top_of(a[d], e, d);
        let shift = Shift { d, e, top };
        let f = shift.coefficients(a);
        let g = monic(&Polynomial { f, d });
        let logs = Shift { d: l, e, top };
        let lg = logs.log_sizes(a);
        let unit = ldexp::ldexp(1.0, -e);
        Scaled {
            f,
            g,
            lg,
            d,
            e,
            unit,
        }
    }

    #[tactic(auto, unfolding(crate::specs::Scaled::scaled_of, crate::specs::Scaled::with_logs_of))]
    pub fn new(p: Polynomial) -> Scaled
        ensures { result ≡ scaled_of p.f p.d }
    {
        Scaled::with_logs(p, p.d)
    }
}
