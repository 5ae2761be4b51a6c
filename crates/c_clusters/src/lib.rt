// Layer 6 below the list as C functions on numbers and byte slices, under the contracts of what they pass on to: the band, what is found in it, polishing
// and the finished roots, each for the polynomial Scaled::new of five doubles in 40 bytes and a degree. A number is NaN, a truth false, and nothing is
// stored, where the doubles have fewer bytes or the degree is above 4. `rt lib c_clusters` makes of them one of the archives that the test host links.
// No C function here requires anything. It rests on the crates whose functions it hands out, and on `lent_bytes`; nothing rests on it.
#![tactic(auto, using(crate::proofs::Polynomials::handed), unfolding(lent_bytes::specs::Bytes::unless, lent_bytes::specs::Bytes::whole))]

ghost use Rattle.std.specs.Prelude.{◌≡◌, false, true, ◌^◌, ◌≤◌, ◌<◌, length, MatchOption};
ghost use Rattle.std.specs.Float.{nan};
ghost use Rattle.roots.specs.Roots.{list_of};
ghost use Rattle.roots.specs.Listed.{multiplicities, Fits, PairsFit};
ghost use Rattle.band.specs.Band.{noise_of, band_of, within_band_of};
ghost use Rattle.critical.specs.Critical.{critical_point_of, extremum_of};
ghost use Rattle.polish.specs.Polish.{polish_of};
ghost use Rattle.lent_bytes.specs.Bytes.{lacks_five, unless, Stored};
ghost use Rattle.c_clusters.specs.Clustering.{poly_at, turning_or_nan, candidate_at, lacks_of, candidates_at};
ghost use Rattle.c_clusters.specs.Clustering.{pair_at, pairs_at, found_numbers, pushed_numbers, finished_numbers};

use horner::Polynomial;
use lent_bytes::lists::root_numbers;
use lent_bytes::{doubles_at, lacks_five, store};

// The polynomial Scaled::new of the five doubles that a holds and the degree d, if a holds them and d is at most 4. (Beside polynomial_at of c_layers: a
// function of both would stand in `lent_bytes`, which has no polynomials and would rest on `horner` for it.)
fn poly_at(a: &[u8], d: u64) -> Option<scaled::Scaled>
    ensures { MatchOption result (lacks_five a.now d ≡ true)
        (λ p. (lacks_five a.now d ≡ false) × (p ≡ poly_at a.now d) × (p.d ≤ 4)) }
{
    if lacks_five(a, d) {
        return None;
    }
    let f = doubles_at(a, 0);
    Some(scaled::Scaled::new(Polynomial { f, d: d as usize }))
}

#[unsafe(no_mangle)]
pub extern "C" fn pongewaru_noise(a: &[u8], d: u64, y: f64) -> f64
    ensures { result ≡ unless nan (lacks_five a.now d) (noise_of (poly_at a.now d) y) }
{
    poly_at(a, d).map_or(f64::NAN, |p| band::noise(p, y))
}

#[unsafe(no_mangle)]
pub extern "C" fn pongewaru_band(a: &[u8], d: u64, y: f64, tol: f64) -> f64
    ensures { result ≡ unless nan (lacks_five a.now d) (band_of (poly_at a.now d) y tol) }
{
    poly_at(a, d).map_or(f64::NAN, |p| band::band(p, y, tol))
}

#[unsafe(no_mangle)]
pub extern "C" fn pongewaru_within_band(a: &[u8], d: u64, half: f64, y: f64, tol: f64) -> bool
    ensures { result ≡ unless false (lacks_five a.now d) (within_band_of (poly_at a.now d) half y tol) }
{
    poly_at(a, d).is_some_and(|p| band::within_band(p, half, y, tol))
}

#[unsafe(no_mangle)]
pub extern "C" fn pongewaru_critical_point(a: &[u8], d: u64, y: f64, lo: f64, hi: f64) -> f64
    ensures { result ≡ unless nan (lacks_five a.now d) (critical_point_of (poly_at a.now d) y lo hi) }
{
    poly_at(a, d).map_or(f64::NAN, |p| critical::critical_point(p, y, lo, hi))
}

// The place, NaN where there is none.
#[tactic(auto, using(float::proofs::Bits::nan_pattern, crate::proofs::Polynomials::turning_is), unfolding(lent_bytes::specs::Bytes::unless))]
#[unsafe(no_mangle)]
pub extern "C" fn pongewaru_extremum(a: &[u8], d: u64, y: f64, lo: f64, hi: f64, tol: f64) -> f64
    ensures { result ≡ unless nan (lacks_five a.now d) (turning_or_nan (extremum_of (poly_at a.now d) y lo hi tol)) }
{
    poly_at(a, d)
        .and_then(|p| critical::extremum(p, y, lo, hi, tol))
        .unwrap_or(f64::NAN)
}

#[unsafe(no_mangle)]
pub extern "C" fn pongewaru_polish(a: &[u8], d: u64, y: f64, gap: f64) -> f64
    ensures { result ≡ unless nan (lacks_five a.now d) (polish_of 4 (poly_at a.now d).f (poly_at a.now d).d gap y) }
{
    poly_at(a, d).map_or(f64::NAN, |p| polish::polish(p.polynomial(), y, gap))
}

// The double at place i, and the byte at place i behind four doubles.
#[tactic(auto, unfolding(crate::specs::Clustering::candidate_at))]
fn candidate_at(c: &[u8], i: usize) -> roots::RealRoot
    requires c_length { 36 ≤ length c.now }
    requires i_high { i < 4 }
    ensures { (result ≡ candidate_at c.now i) × (result.multiplicity < 256) }
{
    let value = float::f64_at(c, 8 * i);
    let multiplicity = c[32 + i] as u32;
    roots::RealRoot::new(value, multiplicity)
}

// Whether c is shorter than its size, or cannot hold n candidates and m pairs.
#[tactic(auto, unfolding(crate::specs::Clustering::lacks_of))]
fn lacks(c: &[u8], size: usize, n: u64, m: u64) -> bool
    ensures { result ≡ lacks_of c.now size n m }
{
    c.len() < size || 4 < n || 2 < m
}

// n candidates.
fn candidates_at(c: &[u8], n: u64) -> roots::Roots
    requires { 36 ≤ length c.now }
    ensures { (result ≡ candidates_at c.now n) × (multiplicities (list_of result) < 2 ^ 32) }
{
    let root = std::array::from_fn(|i| candidate_at(c, i));
    roots::Roots {
        root,
        len: n as usize,
    }
}

// The centre and the half of pair i, behind the candidates.
fn pair_at(c: &[u8], i: usize) -> roots::Pair
    requires c_length { 68 ≤ length c.now }
    requires i_high { i < 2 }
    ensures { result ≡ pair_at c.now i }
{
    roots::Pair {
        centre: float::f64_at(c, 36 + 16 * i),
        half: float::f64_at(c, 44 + 16 * i),
    }
}

// n complex pairs.
fn pairs_at(c: &[u8], n: u64) -> roots::Pairs
    requires { 68 ≤ length c.now }
    ensures { result ≡ pairs_at c.now n }
{
    let pair = std::array::from_fn(|i| pair_at(c, i));
    roots::Pairs {
        pair,
        len: n as usize,
    }
}

// What is found: the numbers of the roots, how many pairs there are, and the centre and the half of each.
#[tactic(auto, unfolding(crate::specs::Clustering::found_numbers))]
fn found_numbers(s: push::Found) -> [f64; 18]
    requires fits { Fits s.roots }
    requires pairs_fit { PairsFit s.pairs }
    ensures { result ≡ found_numbers s }
{
    let [p, q] = s.pairs.pair;
    let mut numbers = [s.pairs.len as f64; 18];
    numbers[14..].copy_from_slice(&[p.centre, p.half, q.centre, q.half]);
    numbers[..13].copy_from_slice(&root_numbers(s.roots));
    numbers
}

// The candidates, n on entry, and the complex pairs, m on entry, after the factor y^2 + al*y + be. Nothing is stored where c is short, or where
// they have no such count. (By let else here and below: of a map_or whose closure stores, the proof does not find what is stored.)
#[tactic(auto, using(crate::proofs::Polynomials::counted), unfolding(lent_bytes::specs::Bytes::unless, lent_bytes::specs::Bytes::whole))]
#[unsafe(no_mangle)]
pub extern "C" fn pongewaru_push_quadratic(
    a: &[u8],
    d: u64,
    al: f64,
    be: f64,
    tol: f64,
    c: &[u8],
    n: u64,
    m: u64,
    out: &mut [u8],
) -> u64
    ensures { Stored (pushed_numbers a.now d al be tol c.now n m) out.old result out.new }
{
    if lacks(c, 68, n, m) {
        return 0;
    }
    let Some(p) = poly_at(a, d) else {
        return 0;
    };
    let roots = candidates_at(c, n);
    let pairs = pairs_at(c, m);
    let found = push::Found { roots, pairs };
    let s = push::push_quadratic(p, al, be, tol, found);
    store(out, &found_numbers(s))
}

// The finished roots of n candidates. Nothing is stored where c is short or n above 4.
#[tactic(auto, using(crate::proofs::Polynomials::counted), unfolding(lent_bytes::specs::Bytes::unless, lent_bytes::specs::Bytes::whole))]
#[unsafe(no_mangle)]
pub extern "C" fn pongewaru_finish(
    a: &[u8],
    d: u64,
    c: &[u8],
    n: u64,
    tol: f64,
    out: &mut [u8],
) -> u64
    ensures { Stored (finished_numbers a.now d c.now n tol) out.old result out.new }
{
    if lacks(c, 36, n, 0) {
        return 0;
    }
    let Some(p) = poly_at(a, d) else {
        return 0;
    };
    let s = finish::finish(p, candidates_at(c, n), tol);
    store(out, &root_numbers(s))
}
