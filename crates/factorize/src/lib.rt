// factorize of poly.rs: the real factors of a scaled polynomial, and where a gap parts its roots by size, those of the small roots from a second scaling.
// It rests on `cubic`, `quartic`, `isolated`, `scaled`, `split`, `factors`, `large_factors` and `quotient`; solving rests on it.
#![tactic(auto)]

ghost use Rattle.std.specs.Prelude.{◌≡◌, ◌≤◌, ◌<◌};
ghost use Rattle.factorize.specs.Factorize.{cubic_factors_of, quartic_factors_of, out_of, factorize_of};
ghost use Rattle.factorize.specs.Factorize.{quartic_factors_systems_of, out_systems_of, factorize_systems_of};
ghost use Rattle.cubic.specs.Cubic.{cubic_systems_of};
ghost use Rattle.factorize.specs.Discs.{disc_at, rooted_of};

use angle::Sine;
use tally::Tallied;

// (The coefficients one by one, here and in quartic_factors, as cubic_factor and quartic_factor take them.)
#[tactic(auto, unfolding(crate::specs::Factorize::cubic_factors_of))]
fn cubic_factors(sine: Sine, b: f64, c: f64, d: f64) -> Tallied<factors::Factors>
    ensures value { result.value ≡ cubic_factors_of sine b c d }
    ensures systems { result.systems ≡ cubic_systems_of sine b c d }
{
    let factor = cubic::cubic_factor(sine, b, c, d);
    let k = factor.value;
    factor.with(
        factors::Factors::default()
            .push_lin(k.r)
            .push_quad(k.e, k.f),
    )
}

// Factors, and the discriminants of the quadratic ones: beside the factors, not in them, since Factors is the Rust's, and those that are merged or large have
// no discriminants yet.
#[derive(Clone, Copy)]
pub struct Rooted {
    pub f: factors::Factors,
    pub disc: [isolated::Disc; 2],
}

#[tactic(auto, unfolding(crate::specs::Discs::disc_at))]
fn disc_at(f: factors::Factors, i: usize) -> isolated::Disc
    requires { i < 2 }
    ensures { result ≡ disc_at f i }
{
    if i < f.nquad {
        let q = f.quad[i];
        return isolated::disc_of(q.al, q.be);
    }
    isolated::Disc {
        disc: 0.0,
        root: 0.0,
    }
}

#[tactic(auto, unfolding(crate::specs::Discs::rooted_of))]
fn with_discs(f: factors::Factors) -> Rooted
    ensures { result ≡ rooted_of f }
{
    let disc = std::array::from_fn(|i| disc_at(f, i));
    Rooted { f, disc }
}

#[tactic(auto, using(crate::proofs::Ways::quartics))]
fn quartic_factors(sine: Sine, b: f64, c: f64, d: f64, e: f64) -> Tallied<Rooted>
    ensures value { result.value ≡ rooted_of (quartic_factors_of sine b c d e) }
    ensures systems { result.systems ≡ quartic_factors_systems_of sine b c d e }
{
    let factor = quartic::quartic_factor(sine, b, c, d, e);
    let quads = factor.value;
    let s = isolated::isolated(quads);
    match s.far {
        Some(r) => {
            let peeled = isolated::peel_root(b, c, d, e, r);
            let p = peeled.value;
            let rest = cubic::cubic_factor(sine, p.h2, p.h1, p.h0);
            let k = rest.value;
            let f = factors::Factors::default()
                .push_lin(p.r)
                .push_lin(k.r)
                .push_quad(k.e, k.f);
            let systems = factor.systems + (peeled.systems + rest.systems);
            Tallied {
                value: with_discs(f),
                systems,
            }
        }
        None => {
            let f = factors::Factors::default()
                .push_quad(quads.al, quads.be)
                .push_quad(quads.ga, quads.de);
            let disc = [s.first, s.second];
            factor.with(Rooted { f, disc })
        }
    }
}

// Factors that no system was solved for.
fn plain(f: factors::Factors) -> Tallied<Rooted>
    ensures value { result.value ≡ rooted_of f }
    ensures systems { result.systems ≡ 0 }
{
    Tallied {
        value: with_discs(f),
        systems: 0,
    }
}

// The factors of degree 2 and below at this scale: no system is solved for them.
#[tactic(auto, unfolding(crate::specs::Factorize::out_of, crate::specs::Factorize::out_systems_of))]
fn few_of(g: &[f64; 5], d: usize) -> Tallied<Rooted>
    requires { d ≤ 2 }
    ensures value { (sine : Sine) → result.value ≡ rooted_of (out_of sine g.now d) }
    ensures systems { (sine : Sine) → result.systems ≡ out_systems_of sine g.now d }
{
    match d {
        0 => plain(factors::Factors::default()),
        1 => plain(factors::Factors::default().push_lin(-g[0])),
        _ => plain(factors::Factors::default().push_quad(g[1], g[0])),
    }
}

// The factors of degree 3 and 4. (In line: so what it makes is not copied out.)
#[inline(always)]
#[tactic(auto, unfolding(crate::specs::Factorize::out_of, crate::specs::Factorize::out_systems_of))]
fn out_of(sine: Sine, g: &[f64; 5], d: usize) -> Tallied<Rooted>
    requires { (3 ≤ d) × (d ≤ 4) }
    ensures value { result.value ≡ rooted_of (out_of sine g.now d) }
    ensures systems { result.systems ≡ out_systems_of sine g.now d }
{
    if d == 3 {
        let out = cubic_factors(sine, g[2], g[1], g[0]);
        return out.with(with_discs(out.value));
    }
    quartic_factors(sine, g[3], g[2], g[1], g[0])
}

// The same, and where a gap parts the roots, those of the small ones from a second scaling.
// (Out of line: smaller degrees do without its frame.)
#[inline(never)]
#[tactic(auto, using(crate::proofs::Ways::ways, crate::proofs::Ways::counts, crate::proofs::Sizes::sizes, crate::proofs::Most::bounds))]
#[cycle(scalings)]
fn parted(sine: Sine, sc: &scaled::Scaled, depth: u32) -> Tallied<Rooted>
    requires { (3 ≤ sc.now.d) × (sc.now.d ≤ 4) }
    ensures value { result.value ≡ rooted_of (factorize_of sine sc.now depth) }
    ensures systems { result.systems ≡ factorize_systems_of sine sc.now depth }
{
    let d = sc.d;
    let out = out_of(sine, &sc.g, d);
    if depth >= 3 {
        return out;
    }
    let Some(gap) = split::magnitude_split(sc.lg, d) else {
        return out;
    };
    let small = gap.small;
    let large = large_factors::large(out.value.f, d - small, gap.threshold);
    if large.degree() != d - small {
        return out;
    }
    let s = quotient::quotient(sc.g, quotient::product(large), small);
    if !quotient::usable(s, small) {
        return out;
    }
    let p = horner::Polynomial { f: s, d: small };
    let sub = scaled::Scaled::new(p);
    let inner = factorize_rooted(sine, sub, depth + 1);
    let merged = quotient::merged(large, inner.value.f, sub.e);
    // The systems for the factors that are dropped were solved too.
    Tallied {
        value: with_discs(merged),
        systems: out.systems + inner.systems,
    }
}

// Of a polynomial that is lent. A quadratic needs no second scaling: its roots are accurate each.
#[tactic(auto, using(crate::proofs::Ways::ways, crate::proofs::Ways::counts))]
#[cycle(scalings)]
pub fn factorize_lent(sine: Sine, sc: &scaled::Scaled, depth: u32) -> Tallied<Rooted>
    requires { sc.now.d ≤ 4 }
    ensures value { result.value ≡ rooted_of (factorize_of sine sc.now depth) }
    ensures systems { result.systems ≡ factorize_systems_of sine sc.now depth }
{
    if sc.d <= 2 {
        return few_of(&sc.g, sc.d);
    }
    parted(sine, sc, depth)
}

// The same of a polynomial by value. (Lent part by part: a copy of the whole would need memcpy.)
#[cycle(scalings)]
pub fn factorize_rooted(sine: Sine, sc: scaled::Scaled, depth: u32) -> Tallied<Rooted>
    requires { sc.d ≤ 4 }
    ensures value { result.value ≡ rooted_of (factorize_of sine sc depth) }
    ensures systems { result.systems ≡ factorize_systems_of sine sc depth }
{
    let f = sc.f;
    let g = sc.g;
    let lg = sc.lg;
    let own = scaled::Scaled {
        f,
        g,
        lg,
        d: sc.d,
        e: sc.e,
        unit: sc.unit,
    };
    factorize_lent(sine, &own, depth)
}

#[tactic(auto, using(crate::proofs::Discs::the_factors))]
pub fn factorize(sine: Sine, sc: scaled::Scaled, depth: u32) -> Tallied<factors::Factors>
    requires { sc.d ≤ 4 }
    ensures value { result.value ≡ factorize_of sine sc depth }
    ensures systems { result.systems ≡ factorize_systems_of sine sc depth }
{
    let rooted = factorize_rooted(sine, sc, depth);
    rooted.with(rooted.value.f)
}
