// Rust's methods on f64, a double rounded down, and doubles from bits and to bits.
ghost use Rattle.std.specs.Prelude.{◌≡◌};
ghost use Rattle.std.specs.Float.{binary64};
ghost use Rattle.std.specs.Float.Ieee.{of_bits, to_bits};
ghost use Rattle.float.specs.Methods.{abs_of, is_finite_of, copysign_of, min_of, max_of, clamp_of, total_le_of, powi_of};
ghost use Rattle.float.specs.Floor.{floor_of};
ghost use Rattle.lent_bytes.specs.Numbers.{up_to};

#[unsafe(no_mangle)]
pub extern "C" fn pongewaru_float_abs(x: f64) -> f64
    ensures { result ≡ abs_of x }
{
    float::abs(x)
}

#[unsafe(no_mangle)]
pub extern "C" fn pongewaru_float_copysign(x: f64, y: f64) -> f64
    ensures { result ≡ copysign_of x y }
{
    float::copysign(x, y)
}

#[unsafe(no_mangle)]
pub extern "C" fn pongewaru_float_min(x: f64, y: f64) -> f64
    ensures { result ≡ min_of x y }
{
    float::min(x, y)
}

#[unsafe(no_mangle)]
pub extern "C" fn pongewaru_float_max(x: f64, y: f64) -> f64
    ensures { result ≡ max_of x y }
{
    float::max(x, y)
}

#[unsafe(no_mangle)]
pub extern "C" fn pongewaru_float_clamp(x: f64, lo: f64, hi: f64) -> f64
    ensures { result ≡ clamp_of x lo hi }
{
    float::clamp(x, lo, hi)
}

#[unsafe(no_mangle)]
pub extern "C" fn pongewaru_float_total_le(x: f64, y: f64) -> bool
    ensures { result ≡ total_le_of x y }
{
    float::total_le(x, y)
}

#[unsafe(no_mangle)]
pub extern "C" fn pongewaru_float_is_finite(x: f64) -> bool
    ensures { result ≡ is_finite_of x }
{
    float::is_finite(x)
}

// v.powi(n) for n up to 4.
#[tactic(auto, using(float::proofs::Bits::nan_pattern), unfolding(lent_bytes::specs::Numbers::up_to))]
#[unsafe(no_mangle)]
pub extern "C" fn pongewaru_float_powi(v: f64, n: u32) -> f64
    ensures { result ≡ up_to 4 n (powi_of v n) }
{
    if 4 < n {
        return f64::NAN;
    }
    float::powi(v, n as usize)
}

#[unsafe(no_mangle)]
pub extern "C" fn pongewaru_float_floor(x: f64) -> u64
    ensures { result ≡ floor_of x }
{
    float::floor(x)
}

#[unsafe(no_mangle)]
pub extern "C" fn pongewaru_float_from_bits(n: u64) -> f64
    ensures { result ≡ of_bits binary64 n }
{
    float::from_bits(n)
}

#[unsafe(no_mangle)]
pub extern "C" fn pongewaru_float_to_bits(x: f64) -> u64
    ensures { result ≡ to_bits binary64 x }
{
    float::to_bits(x)
}
