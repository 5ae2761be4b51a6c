// Scaling, gaps and factors: all numbers of an answer as doubles, one after another, in lent bytes; how many bytes are stored. Nothing is stored where the
// five doubles have fewer than 40 bytes, where the degree is above 4, or where the bytes lent are too few.
ghost use Rattle.std.specs.Prelude.{◌≡◌, [], ◌≤◌};
ghost use Rattle.angle.specs.Third.{sine_numbered};
ghost use Rattle.scaled.specs.Scaled.{scaled_of};
ghost use Rattle.split.specs.Gap.{Inside, magnitude_split_of};
ghost use Rattle.factors.specs.Factors.{Sized};
ghost use Rattle.factorize.specs.Factorize.{factorize_of};
ghost use Rattle.lent_bytes.specs.Bytes.{five_at, lacks_five, unless, Stored};
ghost use Rattle.c_layers.specs.Numbers.{scaled_numbers, split_numbers, factor_numbers};

use crate::evaluation::polynomial_at;
use angle::Sine;
use lent_bytes::{doubles_at, lacks_five, store};

// (From the back: of a part written behind another part the proof does not find that it is within the array. No From here nor below, as in `factoring`.)
#[tactic(auto, using(crate::proofs::Sizes::scaled_are))]
fn scaled_numbers(s: scaled::Scaled) -> [f64; 18]
    requires { s.d ≤ 4 }
    ensures { result ≡ scaled_numbers s }
{
    let mut numbers = [s.unit; 18];
    numbers[15] = s.d as f64;
    numbers[16] = s.e as f64;
    numbers[10..15].copy_from_slice(&s.lg);
    numbers[5..10].copy_from_slice(&s.g);
    numbers[..5].copy_from_slice(&s.f);
    numbers
}

// f, g, lg, d, e and unit of the polynomial with the coefficients a, ascending, and the degree d.
#[tactic(auto, using(crate::proofs::Sizes::sized), unfolding(lent_bytes::specs::Bytes::unless, lent_bytes::specs::Bytes::whole))]
#[unsafe(no_mangle)]
pub extern "C" fn pongewaru_scaled_new(a: &[u8], d: u64, out: &mut [u8]) -> u64
    ensures { Stored (unless [] (lacks_five a.now d) (scaled_numbers (scaled_of (five_at a.now) d)))
        out.old result out.new }
{
    let Some(p) = polynomial_at(a, d) else {
        return 0;
    };
    let s = scaled::Scaled::new(p);
    store(out, &scaled_numbers(s))
}

#[tactic(auto, unfolding(crate::specs::Numbers::split_numbers))]
fn split_numbers(s: Option<split::Gap>) -> [f64; 3]
    requires { Inside 4 s }
    ensures { result ≡ split_numbers s }
{
    match s {
        Some(gap) => [1.0, gap.small as f64, gap.threshold],
        None => [0.0; 3],
    }
}

// 1, small and threshold for the logarithms lg and the degree d, or three zeros where there is no gap.
#[tactic(auto, using(crate::proofs::Sizes::sized), unfolding(lent_bytes::specs::Bytes::unless, lent_bytes::specs::Bytes::whole))]
#[unsafe(no_mangle)]
pub extern "C" fn pongewaru_magnitude_split(lg: &[u8], d: u64, out: &mut [u8]) -> u64
    ensures { Stored (unless [] (lacks_five lg.now d) (split_numbers (magnitude_split_of (five_at lg.now) d)))
        out.old result out.new }
{
    if lacks_five(lg, d) {
        return 0;
    }
    let s = split::magnitude_split(doubles_at(lg, 0), d as usize);
    store(out, &split_numbers(s))
}

// nlin, lin, nquad, and the al and be of both quad.
#[tactic(auto, unfolding(crate::specs::Numbers::factor_numbers))]
fn factor_numbers(f: factors::Factors) -> [f64; 10]
    requires { Sized f }
    ensures { result ≡ factor_numbers f }
{
    let [p, q] = f.quad;
    let mut numbers = [f.nlin as f64; 10];
    numbers[1..5].copy_from_slice(&f.lin);
    numbers[5..].copy_from_slice(&[f.nquad as f64, p.al, p.be, q.al, q.be]);
    numbers
}

// nlin, lin, nquad and the al and be of quad for that polynomial, from this depth on.
#[tactic(auto, using(crate::proofs::Sizes::sized), unfolding(lent_bytes::specs::Bytes::unless, lent_bytes::specs::Bytes::whole))]
#[unsafe(no_mangle)]
pub extern "C" fn pongewaru_factorize(
    sine: u32,
    a: &[u8],
    d: u64,
    depth: u32,
    out: &mut [u8],
) -> u64
    ensures { Stored (unless [] (lacks_five a.now d)
        (factor_numbers (factorize_of (sine_numbered sine) (scaled_of (five_at a.now) d) depth))) out.old result out.new }
{
    let Some(p) = polynomial_at(a, d) else {
        return 0;
    };
    let s = scaled::Scaled::new(p);
    let f = factorize::factorize(Sine::from(sine), s, depth).value;
    store(out, &factor_numbers(f))
}
