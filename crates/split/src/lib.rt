// magnitude_split of poly.rs: the topmost gap of more than 8 bits between root sizes, read off what it calls the upper hull of the points (i, lg[i]).
// It rests on `float` and `ldexp`; factorize, which hands it the logarithms of a scaled polynomial, rests on it.
#![tactic(auto)]

ghost use Rattle.std.specs.Prelude.{◌≡◌, ◌≤◌, ◌<◌, ◌+◌};
ghost use Rattle.split.specs.Hull.{width_of, Rising, cross_of, popped_of, hull_of, mag_of};
ghost use Rattle.split.specs.Gap.{exp2_of, magnitude_split_of};

// The points of the hull by their indices, the first h of `at`: fixed memory, as in the Rust.
#[derive(Clone, Copy)]
pub struct Hull {
    pub at: [usize; 5],
    pub h: usize,
}

// In the Rust's words the number of roots below the gap, and the geometric middle of the gap.
#[derive(Clone, Copy)]
pub struct Gap {
    pub small: usize,
    pub threshold: f64,
}

fn width(a: usize, b: usize) -> f64
    requires a_high { a ≤ b }
    requires b_high { b ≤ 4 }
    ensures { result ≡ width_of a b }
{
    (b - a) as f64
}

// At least 0 where the point b lies on or below the line from a to i.
#[tactic(auto, unfolding(crate::specs::Hull::cross_of))]
fn cross(lg: &[f64; 5], a: usize, b: usize, i: usize) -> f64
    requires a_high { a ≤ b }
    requires b_high { b ≤ i }
    requires i_high { i ≤ 4 }
    ensures { result ≡ cross_of lg.now a b i }
{
    width(a, b) * (lg[i] - lg[a]) - (lg[b] - lg[a]) * width(a, i)
}

impl Hull {
    // How many points stay once those that do not stand above the line to i are dropped.
    #[tactic(auto, using(crate::proofs::Rises::dropped))]
    fn popped(&self, lg: &[f64; 5], i: usize) -> usize
        requires rising { Rising i self.now }
        requires i_high { i ≤ 4 }
        ensures { (result ≡ popped_of lg.now self.now.at i self.now.h) × (result ≤ self.now.h) }
    {
        let mut k = self.h;
        // A while: k is both the count that stays and the place that is read, and a take_while's count would have to be taken off h again.
        while 2 <= k && cross(lg, self.at[k - 2], self.at[k - 1], i) >= 0.0 {
            k -= 1;
        }
        k
    }

    // The logarithm of the size of the roots of edge k.
    #[tactic(auto, unfolding(crate::specs::Hull::mag_of))]
    fn mag(&self, lg: &[f64; 5], k: usize) -> f64
        requires rising { Rising 5 self.now }
        requires edge { k + 1 < self.now.h }
        ensures { result ≡ mag_of lg.now self.now.at k }
    {
        let a = self.at[k];
        let b = self.at[k + 1];
        (lg[a] - lg[b]) / width(a, b)
    }
}

// (lg with d beside it, here and in magnitude_split, as C hands them in: pongewaru_magnitude_split. So d ≤ 4 and i ≤ 4: lg has five places.)
#[tactic(auto, using(crate::proofs::Rises::hulls), unfolding(crate::specs::Hull::hull_of))]
pub fn upper_hull(lg: [f64; 5], d: usize) -> Hull
    requires { d ≤ 4 }
    ensures { result ≡ hull_of lg d }
{
    let mut s = Hull { at: [0; 5], h: 0 };
    for i in 0..=d {
        if float::is_finite(lg[i]) {
            let k = s.popped(&lg, i);
            s.at[k] = i;
            s.h = k + 1;
        }
    }
    s
}

// 2^x, x rounded down; a NaN counts as 0, as where Rust makes a whole number of it.
#[tactic(auto, unfolding(crate::specs::Gap::exp2_of))]
fn exp2(x: f64) -> f64
    ensures { result ≡ exp2_of x }
{
    if float::is_nan(x) {
        1.0
    } else {
        ldexp::ldexp_by(1.0, float::floor(x), 8192)
    }
}

#[tactic(auto, using(crate::proofs::Gaps::gaps))]
pub fn magnitude_split(lg: [f64; 5], d: usize) -> Option<Gap>
    requires { d ≤ 4 }
    ensures { result ≡ magnitude_split_of lg d }
{
    let s = upper_hull(lg, d);
    // A for: find_map does not tell its closure that k + 2 is below h, which the edges need.
    for k in (0..s.h.saturating_sub(2)).rev() {
        let lo = s.mag(&lg, k);
        let hi = s.mag(&lg, k + 1);
        if hi - lo > 8.0 {
            return Some(Gap {
                small: s.at[k + 1],
                threshold: exp2(0.5 * (lo + hi)),
            });
        }
    }
    None
}
