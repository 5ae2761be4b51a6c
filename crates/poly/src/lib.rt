// real_roots of poly.rs: a list of coefficients of any length and any bits gives at most four roots, or a refusal.
// It rests on scaling, factoring, the band and finishing; the inquiry and the programs rest on it.
#![tactic(auto)]

ghost use Rattle.std.specs.Prelude.{◌≡◌, ℕ, ◌+◌, ◌-◌, ◌≤◌, ◌<◌, length, IfOk};
ghost use Rattle.facts.specs.Count.{count_up};
ghost use Rattle.tally.specs.Tally.{answer_in, systems_in};
ghost use Rattle.factorize.specs.Factorize.{factorize_of, factorize_systems_of};
ghost use Rattle.factorize.specs.Discs.{rooted_of};
ghost use Rattle.roots.specs.Roots.{roots_of, list_of};
ghost use Rattle.push.specs.Quadratic.{found_of};
ghost use Rattle.roots.specs.Listed.{Within, Fits};
ghost use Rattle.poly.specs.Coefficients.{trimmed_of, degree_left, zeros_of, counted_of, middle_of};
ghost use Rattle.poly.specs.Solve.{zero_roots_of, candidates_of, finished_of, solve_of};
ghost use Rattle.poly.specs.Found.{with_lin_in, with_quad_in};
ghost use Rattle.poly.specs.Brief.{Enough, SolvedBy, ButLogs};
ghost use Rattle.poly.specs.RealRoots.{unscaled_all, real_roots_of, real_roots_systems_of, roots_in};

use angle::Sine;
use horner::Polynomial;
use refusals::Refusal;
use tally::Tallied;

// What Scaled::solve and finish give: the scaled polynomial, the tolerance, its finished roots and its complex pairs; and how many systems were solved.
#[derive(Clone, Copy)]
pub struct Solved {
    pub poly: scaled::Scaled,
    pub tol: f64,
    pub roots: roots::Roots,
    pub pairs: roots::Pairs,
    pub systems: u32,
}

// A scaled polynomial without the zeros that came first, how many those are, and the tolerance.
// (Lent: what was just made is not copied.)
#[derive(Clone, Copy)]
struct Stripped<'a> {
    poly: &'a scaled::Scaled,
    zeros: usize,
    tol: f64,
    ghost room: { poly.now.d + zeros ≤ 4 },
}

// How many are left once trailing zeros are dropped.
#[tactic(auto, using(crate::proofs::Coefficients::trimmed_none, crate::proofs::Coefficients::trimmed_last))]
fn trimmed(coeffs: &[f64]) -> usize
    ensures { (result ≡ trimmed_of coeffs.now) × (result ≤ length coeffs.now) }
{
    coeffs.iter().rposition(|&c| c != 0.0).map_or(0, |i| i + 1)
}

// How many zeros come first.
fn leading_zeros(coeffs: &[f64]) -> usize
    ensures { result ≡ zeros_of coeffs.now }
{
    coeffs.iter().take_while(|&&c| c == 0.0).count()
}

// How many count, or why the list is refused.
#[tactic(auto, using(crate::proofs::Coefficients::zeros_below), unfolding(crate::specs::Coefficients::counted_by))]
fn counted(coeffs: &[f64]) -> Result<usize, Refusal>
    ensures value { result ≡ counted_of coeffs.now }
    ensures room { IfOk result (λ n. (zeros_of coeffs.now < n) × (n ≤ 5) × (n ≤ length coeffs.now)) }
{
    if !float::all_finite(coeffs) {
        return Err(Refusal::NotFinite);
    }
    let n = trimmed(coeffs);
    if n <= 1 {
        return Err(Refusal::TooFew);
    }
    if 5 < n {
        return Err(Refusal::TooMany);
    }
    Ok(n)
}

// The coefficients in from..to, zeros after them.
#[tactic(auto, using(float::proofs::Made::made_by), unfolding(crate::specs::Coefficients::middle_at, crate::specs::Coefficients::middle_of))]
fn middle(coeffs: &[f64], from: usize, to: usize) -> [f64; 5]
    requires { (from ≤ to) × (to ≤ length coeffs.now) }
    ensures { result ≡ middle_of coeffs.now from to }
{
    std::array::from_fn(|i| if i < to - from { coeffs[from + i] } else { 0.0 })
}

// The polynomial that the coefficients in from..to are.
fn polynomial(coeffs: &[f64], from: usize, to: usize) -> Polynomial
    requires { (from < to) × (to ≤ 5) × (to ≤ length coeffs.now) }
    ensures { (result.f ≡ middle_of coeffs.now from to) × (result.d ≡ to - from - 1) }
{
    let d = to - from - 1;
    Polynomial {
        f: middle(coeffs, from, to),
        d,
    }
}

// The leading zeros are one root.
#[tactic(auto, using(crate::proofs::Arrays::zeros_some, crate::proofs::Arrays::zeros_none))]
fn zero_roots(zeros: usize) -> roots::Roots
    requires { zeros ≤ 4 }
    ensures { result ≡ roots_of (zero_roots_of zeros) }
{
    let none = roots::Roots::default();
    if zeros > 0 {
        return none.keep(0.0, zeros as u32);
    }
    none
}

// The candidates with the roots of the linear factors.
#[tactic(auto, using(crate::proofs::Turns::turns))]
fn with_lins(f: &factors::Factors, start: roots::Roots) -> roots::Roots
    requires { f.now.nlin ≤ 4 }
    ensures { result ≡ count_up f.now.nlin (with_lin_in f.now) f.now.nlin start }
{
    let mut s = start;
    for r in &f.lin[..f.nlin] {
        s = s.keep(*r, 1);
    }
    s
}

impl Stripped<'_> {
    // The candidates with the roots of the quadratic factors, and the pairs.
    #[tactic(auto, using(crate::proofs::Turns::turns, push::proofs::Laws::same_push, factorize::proofs::Discs::disc_is))]
    fn with_quads(&self, r: &factorize::Rooted, start: push::Found) -> push::Found
        requires { (r.now.f.nquad ≤ 2) × (r.now ≡ rooted_of r.now.f) }
        ensures { result ≡ count_up r.now.f.nquad (with_quad_in self.now.poly.now r.now.f self.now.tol) r.now.f.nquad start }
    {
        let mut s = start;
        // By index: that what a zip of the two arrays has left is their rest does not prove from one turn to the next.
        for i in 0..r.f.nquad {
            let q = r.f.quad[i];
            s = push::push_rooted(*self.poly, q.al, q.be, r.disc[i], self.tol, s);
        }
        s
    }

    // The candidates and the complex pairs.
    fn candidates(&self, sine: Sine) -> Tallied<push::Found>
        ensures value { result.value ≡ found_of (candidates_of self.now.poly.now self.now.zeros (factorize_of sine self.now.poly.now 0) self.now.tol) }
        ensures systems { result.systems ≡ factorize_systems_of sine self.now.poly.now 0 }
    {
        let factors = &factorize::factorize_lent(sine, self.poly, 0);
        let r = &factors.value;
        let roots = with_lins(&r.f, zero_roots(self.zeros));
        let pairs = roots::Pairs::default();
        let value = self.with_quads(r, push::Found { roots, pairs });
        // (Not by `with`, which takes the factors by value.)
        Tallied {
            value,
            systems: factors.systems,
        }
    }

    // Factored and finished.
    #[tactic(auto, using(crate::proofs::Steps::finished_is))]
    fn finished(&self, sine: Sine) -> Solved
        ensures { result ≡ finished_of sine self.now.poly.now self.now.zeros self.now.tol }
    {
        let found = &self.candidates(sine);
        let poly = *self.poly;
        let tol = self.tol;
        let roots = finish::finish_lent(self.poly, &found.value.roots, tol);
        let pairs = found.value.pairs;
        let systems = found.systems;
        Solved {
            poly,
            tol,
            roots,
            pairs,
            systems,
        }
    }
}

// The degree whose logarithms factoring needs: d, or 0 where a level list needs none.
fn needed(p: Polynomial) -> usize
    ensures { (result ≤ 4) × Enough p.f p.d result }
{
    if level::level(p) {
        return 0;
    }
    p.d
}

// Solved with the logarithms of the degree that `logs` gives.
#[tactic(auto, using(crate::proofs::Steps::new_degree, crate::proofs::Steps::refused_by))]
fn solve_by<F: Fn(Polynomial) -> usize>(
    sine: Sine,
    coeffs: &[f64],
    tol: f64,
    logs: F,
) -> Result<Solved, Refusal>
    requires callable { F.IsAlwaysCallable logs }
    requires small { (p : Polynomial) (l : ℕ) → F.post logs p l → l ≤ 4 }
    ensures { SolvedBy sine (F.post logs) coeffs.now tol result }
{
    let n = counted(coeffs)?;
    let zeros = leading_zeros(coeffs);
    let p = polynomial(coeffs, zeros, n);
    let poly = &scaled::Scaled::with_logs(p, logs(p));
    let tol = float::max(tol, 0.0);
    Ok(Stripped { poly, zeros, tol }.finished(sine))
}

#[tactic(auto, using(crate::proofs::Steps::solved_all))]
pub fn solve(sine: Sine, coeffs: &[f64], tol: f64) -> Result<Solved, Refusal>
    ensures { result ≡ solve_of sine coeffs.now tol }
{
    solve_by(sine, coeffs, tol, |p| p.d)
}

// The same for those who never look at a logarithm.
#[tactic(auto, using(crate::proofs::Steps::solved_brief))]
pub fn solve_brief(sine: Sine, coeffs: &[f64], tol: f64) -> Result<Solved, Refusal>
    ensures { ButLogs result (solve_of sine coeffs.now tol) }
{
    solve_by(sine, coeffs, tol, needed)
}

// The roots in x = y * 2^e that are finite.
#[tactic(auto, using(crate::proofs::Arrays::unscaled_end), unfolding(crate::specs::RealRoots::unscaled_all))]
fn unscaled_all(s: &roots::Roots, e: i32) -> roots::Roots
    requires { Fits s.now }
    ensures { result ≡ roots_of (unscaled_all e (list_of s.now)) }
{
    let mut out = roots::Roots::default();
    for r in &s.root[..s.len] {
        out = out.keep(ldexp::ldexp(r.value, e), r.multiplicity);
    }
    out
}

// Demand 1 holds of the answer: at most four finite roots, each counting at least once, together at most the degree left.
// `sine` is the mode: the third angle's sine is that of the rounded cosine, as in the reference build, or of the exact one.
#[tactic(auto, using(crate::proofs::Steps::new_degree, crate::proofs::Steps::refused_lists, crate::proofs::Systems::refused_systems))]
pub fn real_roots(sine: Sine, coeffs: &[f64], tol: f64) -> Result<Tallied<roots::Roots>, Refusal>
    ensures value { (answer_in result ≡ real_roots_of sine coeffs.now tol)
        × Within (degree_left coeffs.now) (list_of (roots_in (answer_in result))) }
    ensures systems { systems_in result ≡ real_roots_systems_of sine coeffs.now tol }
{
    // (Not by solve_brief, which copies all that is solved: here the roots alone are read.)
    let n = counted(coeffs)?;
    let zeros = leading_zeros(coeffs);
    let p = polynomial(coeffs, zeros, n);
    let poly = &scaled::Scaled::with_logs(p, needed(p));
    let tol = float::max(tol, 0.0);
    let s = &Stripped { poly, zeros, tol }.candidates(sine);
    let roots = &finish::finish_lent(poly, &s.value.roots, tol);
    let value = unscaled_all(roots, poly.e);
    let systems = s.systems;
    Ok(Tallied { value, systems })
}
