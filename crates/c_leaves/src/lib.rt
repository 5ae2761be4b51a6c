// Layer 1 as C functions on numbers and byte slices, under the contracts of what they pass on to: the leaves (scaling, exponent, roots, logarithm, third
// angle) here, Rust's methods on f64 in `floats`. `rt lib c_leaves` makes of them one of the archives that the test host links. None of them requires anything.
// It rests on the crates whose functions it hands out, and on `lent_bytes`; nothing rests on it.
#![tactic(auto, using(lent_bytes::proofs::Whole::no_bytes), unfolding(lent_bytes::specs::Bytes::unless, lent_bytes::specs::Bytes::whole))]

ghost use Rattle.std.specs.Prelude.{◌≡◌, [], ltb, length};
ghost use Rattle.ldexp.specs.Scale.{ldexp_of};
ghost use Rattle.ldexp.specs.Total.{pow2_or_nan};
ghost use Rattle.decode.specs.Exponent.{exponent_of};
ghost use Rattle.log2.specs.Log.{log2_grid_of, log2_five_of};
ghost use Rattle.sqrt.specs.Root.{sqrt_of};
ghost use Rattle.cbrt.specs.Root.{cbrt_of};
ghost use Rattle.angle.specs.Third.{sine_numbered, third_angle_of};
ghost use Rattle.lent_bytes.specs.Bytes.{five_at, unless, Stored};
ghost use Rattle.c_leaves.specs.Numbers.{angle_numbers};

use angle::Sine;
use lent_bytes::{doubles_at, store};

pub mod floats;

#[unsafe(no_mangle)]
pub extern "C" fn pongewaru_leaf_ldexp(x: f64, k: i32) -> f64
    ensures { result ≡ ldexp_of x k }
{
    ldexp::ldexp(x, k)
}

#[unsafe(no_mangle)]
pub extern "C" fn pongewaru_leaf_pow2(k: i32) -> f64
    ensures { result ≡ pow2_or_nan k }
{
    ldexp::pow2_or_nan(k)
}

#[unsafe(no_mangle)]
pub extern "C" fn pongewaru_leaf_exponent(x: f64) -> i32
    ensures { result ≡ exponent_of x }
{
    decode::exponent(x)
}

#[unsafe(no_mangle)]
pub extern "C" fn pongewaru_leaf_sqrt(x: f64) -> f64
    ensures { result ≡ sqrt_of x }
{
    sqrt::sqrt(x)
}

#[unsafe(no_mangle)]
pub extern "C" fn pongewaru_leaf_cbrt(x: f64) -> f64
    ensures { result ≡ cbrt_of x }
{
    cbrt::cbrt(x)
}

#[unsafe(no_mangle)]
pub extern "C" fn pongewaru_leaf_log2(x: f64) -> f64
    ensures { result ≡ log2_grid_of x }
{
    log2::log2_grid(x)
}

// c and s, of the exact c for 0 and of the rounded one for every other number, into 16 bytes; how many bytes are stored.
#[unsafe(no_mangle)]
pub extern "C" fn pongewaru_leaf_third_angle(sine: u32, v: f64, out: &mut [u8]) -> u64
    ensures { Stored (angle_numbers (third_angle_of (sine_numbered sine) v)) out.old result out.new }
{
    let t = angle::third_angle(Sine::from(sine), v);
    store(out, &[t.cos, t.sin])
}

// L of five doubles in 40 bytes, into 40 bytes; how many bytes are stored.
#[unsafe(no_mangle)]
pub extern "C" fn pongewaru_leaf_log2_five(a: &[u8], out: &mut [u8]) -> u64
    ensures { Stored (unless [] (ltb (length a.now) 40) (log2_five_of (five_at a.now))) out.old result out.new }
{
    if a.len() < 40 {
        return 0;
    }
    store(out, &log2::log2_five(doubles_at(a, 0)))
}
