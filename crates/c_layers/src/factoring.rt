// Factors of cubics and quartics: all numbers of an answer as doubles, one after another, in lent bytes; how many bytes are stored, 0 and nothing where those
// lent are too few.
ghost use Rattle.std.specs.Prelude.{◌≡◌};
ghost use Rattle.angle.specs.Third.{sine_numbered};
ghost use Rattle.cubic.specs.Cubic.{cubic_closed_form_of, cubic_factor_of};
ghost use Rattle.quartic.specs.Quartic.{quartic_factor_of};
ghost use Rattle.isolated.specs.Isolated.{isolated_root_of, peel_root_of};
ghost use Rattle.lent_bytes.specs.Bytes.{Stored};
ghost use Rattle.c_layers.specs.Numbers.{roots_numbers, cubic_numbers, quartic_numbers, lone_numbers, peeled_numbers};

use angle::Sine;
use cubic::CubicRoots;
use lent_bytes::store;
use quartic::QuarticFactor;

// (No From, here and for the others: the trait and the types are of other crates.)
#[tactic(auto, using(lent_bytes::proofs::Counts::counts), unfolding(crate::specs::Numbers::roots_numbers))]
fn roots_numbers(roots: CubicRoots) -> [f64; 4]
    ensures { result ≡ roots_numbers roots }
{
    match roots {
        CubicRoots::One(x) => [1.0, x, 0.0, 0.0],
        CubicRoots::Three(x) => [3.0, x[0], x[1], x[2]],
    }
}

// How many roots there are, and three places, 0 from the last root on. (Which sine: 0 for that of the exact cosine, here and below.)
#[unsafe(no_mangle)]
pub extern "C" fn pongewaru_cubic_closed_form(
    sine: u32,
    b: f64,
    c: f64,
    d: f64,
    out: &mut [u8],
) -> u64
    ensures { Stored (roots_numbers (cubic_closed_form_of (sine_numbered sine) b c d)) out.old result out.new }
{
    let roots = cubic::cubic_closed_form(Sine::from(sine), b, c, d);
    store(out, &roots_numbers(roots))
}

#[unsafe(no_mangle)]
pub extern "C" fn pongewaru_cubic_factor(sine: u32, b: f64, c: f64, d: f64, out: &mut [u8]) -> u64
    ensures { Stored (cubic_numbers (cubic_factor_of (sine_numbered sine) b c d)) out.old result out.new }
{
    let x = cubic::cubic_factor(Sine::from(sine), b, c, d).value;
    store(out, &[x.r, x.e, x.f])
}

#[unsafe(no_mangle)]
pub extern "C" fn pongewaru_quartic_factor(
    sine: u32,
    b: f64,
    c: f64,
    d: f64,
    e: f64,
    out: &mut [u8],
) -> u64
    ensures { Stored (quartic_numbers (quartic_factor_of (sine_numbered sine) b c d e)) out.old result out.new }
{
    let x = quartic::quartic_factor(Sine::from(sine), b, c, d, e).value;
    store(out, &[x.al, x.be, x.ga, x.de])
}

#[tactic(auto, using(float::proofs::Bits::nan_pattern), unfolding(crate::specs::Numbers::lone_numbers))]
fn lone_numbers(found: Option<f64>) -> [f64; 2]
    ensures { result ≡ lone_numbers found }
{
    match found {
        Some(x) => [1.0, x],
        None => [0.0, f64::NAN],
    }
}

// 1 and the lone root, or 0 and NaN where there is none.
#[unsafe(no_mangle)]
pub extern "C" fn pongewaru_isolated_root(al: f64, be: f64, ga: f64, de: f64, out: &mut [u8]) -> u64
    ensures { Stored (lone_numbers (isolated_root_of (record { al = al; be = be; ga = ga; de = de }))) out.old result out.new }
{
    let found = isolated::isolated_root(QuarticFactor { al, be, ga, de });
    store(out, &lone_numbers(found))
}

#[unsafe(no_mangle)]
pub extern "C" fn pongewaru_peel_root(b: f64, c: f64, d: f64, e: f64, y: f64, out: &mut [u8]) -> u64
    ensures { Stored (peeled_numbers (peel_root_of b c d e y)) out.old result out.new }
{
    let x = isolated::peel_root(b, c, d, e, y).value;
    store(out, &[x.r, x.h2, x.h1, x.h0])
}
