// Whether the exponents of the coefficients alone show that magnitude_split finds no gap: then no logarithm is taken.
// It rests on `decode`, and says what it says of `scaled` and `split`; the list of roots rests on it.
#![tactic(auto)]

ghost use Rattle.std.specs.Prelude.{◌≡◌, true, ◌+◌, ◌*◌, ◌≤◌, ◌<◌, Some, IfSome};
ghost use Rattle.level.specs.Level.{Binade, NoGap};

use horner::Polynomial;

// The exponent of x, counted from 2^-1074: none where x is zero or not finite.
#[tactic(auto, using(crate::proofs::Turns::binade_of))]
fn place_of(x: f64) -> Option<u64>
    ensures { IfSome result (Binade x) }
{
    decode::normal_of(x).map(|n| n.k)
}

// So much is added at each place, less 2100, that the last exponent comes near the first: it is shared out in d steps, to the nearest whole number.
fn slope(first: u64, last: u64, d: usize) -> u64
    requires places { (first < 4096) × (last < 4096) }
    requires d_range { (3 ≤ d) × (d ≤ 4) }
    ensures { result < 10000 }
{
    let d = d as u64;
    (first + 2100 * d + d / 2 - last) / d
}

fn raised(k: u64, s: u64, i: usize) -> u64
    requires k_high { k ≤ 4096 }
    requires s_high { s < 10000 }
    requires i_high { i ≤ 4 }
    ensures { (result + 2100 * i ≡ k + s * i + 8400) × (result < 100000) }
{
    k + s * i as u64 + (8400 - 2100 * i as u64)
}

// Raised so, all stand at `lo` or above, and those between the ends at `hi` or below. Where hi - lo is at most 3, no root is 2^8 times as large as the next.
#[tactic(auto, using(crate::proofs::Turns::seen))]
fn in_window(p: Polynomial) -> Option<bool>
    requires { 3 ≤ p.d }
    ensures { result ≡ Some true → NoGap p.f p.d }
{
    let first = place_of(p.f[0])?;
    let last = place_of(p.f[p.d])?;
    let s = slope(first, last, p.d);
    let mut lo = std::cmp::min(raised(first, s, 0), raised(last, s, p.d));
    let mut hi = 0;
    for i in 1..p.d {
        let t = raised(place_of(p.f[i])?, s, i);
        lo = std::cmp::min(lo, t);
        hi = std::cmp::max(hi, t);
    }
    Some(hi <= lo + 3)
}

// None of the coefficients may be zero or not finite.
pub fn level(p: Polynomial) -> bool
    ensures { result ≡ true → NoGap p.f p.d }
{
    3 <= p.d && in_window(p) == Some(true)
}
