// Evaluation: all numbers of an answer as doubles, one after another, in lent bytes; how many bytes are stored. Nothing is stored where the five doubles of p
// have fewer than 40 bytes, where the degree is above 4, or where the bytes lent are too few.
ghost use Rattle.std.specs.Prelude.{◌≡◌, [], false, true, MatchOption};
ghost use Rattle.horner.specs.Product.{two_prod_of, discriminant_of};
ghost use Rattle.horner.specs.Horner.{value_slope_of, value_slope_compensated_of};
ghost use Rattle.horner.specs.Taylor.{derivs12_of, taylor_of};
ghost use Rattle.lent_bytes.specs.Bytes.{five_at, lacks_five, unless, Stored};
ghost use Rattle.c_layers.specs.Numbers.{product_numbers, slope_numbers, derivs_numbers};

use horner::Polynomial;
use lent_bytes::{doubles_at, lacks_five, store};

// The polynomial of degree d that p holds, if it holds one. (By let else where it is used: of a map_or whose closure stores, the proof does not find what is
// stored.)
pub(super) fn polynomial_at(p: &[u8], d: u64) -> Option<Polynomial>
    ensures { MatchOption result (lacks_five p.now d ≡ true)
        (λ q. (lacks_five p.now d ≡ false) × (q.f ≡ five_at p.now) × (q.d ≡ d)) }
{
    if lacks_five(p, d) {
        return None;
    }
    let f = doubles_at(p, 0);
    Some(Polynomial { f, d: d as usize })
}

#[unsafe(no_mangle)]
pub extern "C" fn pongewaru_two_prod(a: f64, b: f64, out: &mut [u8]) -> u64
    ensures { Stored (product_numbers (two_prod_of a b)) out.old result out.new }
{
    let t = horner::two_prod(a, b);
    store(out, &[t.prod, t.err])
}

#[unsafe(no_mangle)]
pub extern "C" fn pongewaru_discriminant(al: f64, be: f64) -> f64
    ensures { result ≡ discriminant_of al be }
{
    horner::discriminant(al, be)
}

#[unsafe(no_mangle)]
pub extern "C" fn pongewaru_value_slope(p: &[u8], d: u64, y: f64, out: &mut [u8]) -> u64
    ensures { Stored (unless [] (lacks_five p.now d) (slope_numbers (value_slope_of (five_at p.now) d y)))
        out.old result out.new }
{
    let Some(p) = polynomial_at(p, d) else {
        return 0;
    };
    let t = p.value_slope(y);
    store(out, &[t.value, t.slope])
}

#[unsafe(no_mangle)]
pub extern "C" fn pongewaru_value_slope_compensated(p: &[u8], d: u64, y: f64, out: &mut [u8]) -> u64
    ensures { Stored (unless [] (lacks_five p.now d)
        (slope_numbers (value_slope_compensated_of (five_at p.now) d y))) out.old result out.new }
{
    let Some(p) = polynomial_at(p, d) else {
        return 0;
    };
    let t = p.value_slope_compensated(y);
    store(out, &[t.value, t.slope])
}

#[unsafe(no_mangle)]
pub extern "C" fn pongewaru_derivs12(p: &[u8], d: u64, y: f64, out: &mut [u8]) -> u64
    ensures { Stored (unless [] (lacks_five p.now d) (derivs_numbers (derivs12_of (five_at p.now) d y)))
        out.old result out.new }
{
    let Some(p) = polynomial_at(p, d) else {
        return 0;
    };
    let t = p.derivs12(y);
    store(out, &[t.d1, t.d2])
}

#[unsafe(no_mangle)]
pub extern "C" fn pongewaru_taylor(p: &[u8], d: u64, y: f64, out: &mut [u8]) -> u64
    ensures { Stored (unless [] (lacks_five p.now d) (taylor_of (five_at p.now) d y)) out.old result out.new }
{
    let Some(p) = polynomial_at(p, d) else {
        return 0;
    };
    store(out, &p.taylor(y))
}
