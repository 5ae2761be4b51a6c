// solve_trig of equation.rs on all bits, up to its quartic: the crank equation's k, and the quartic in u.
// It rests on `refusals` and `float`; the crank's inquiry and the C functions rest on it.
#![tactic(auto)]

ghost use Rattle.std.specs.Prelude.{◌≡◌, ◌<◌};
ghost use Rattle.float.specs.Methods.{all_finite_of};
ghost use Rattle.trig_quartic.specs.Crank.{eighth_of, f_at_of, numbers_of, sample_of, quartic_of, crank_front_of};

use refusals::Refusal;
use std::f64::consts::FRAC_1_SQRT_2 as H;

#[derive(Clone, Copy)]
struct CosSin {
    cos: f64,
    sin: f64,
}

// cos and sin of k*PI/4.
static UNIT: [CosSin; 8] = [
    CosSin { cos: 1.0, sin: 0.0 },
    CosSin { cos: H, sin: H },
    CosSin { cos: 0.0, sin: 1.0 },
    CosSin { cos: -H, sin: H },
    CosSin {
        cos: -1.0,
        sin: 0.0,
    },
    CosSin { cos: -H, sin: -H },
    CosSin {
        cos: 0.0,
        sin: -1.0,
    },
    CosSin { cos: H, sin: -H },
];

fn unit(k: u32) -> CosSin
    requires { k < 8 }
    ensures { result ≡ eighth_of k }
{
    UNIT[k as usize]
}

// a2*cos 2t + b2*sin 2t + c1*cos t + d1*sin t + e = 0.
#[derive(Clone, Copy)]
pub struct TrigEquation {
    pub a2: f64,
    pub b2: f64,
    pub c1: f64,
    pub d1: f64,
    pub e: f64,
}

impl TrigEquation {
    fn is_finite(self) -> bool
        ensures { result ≡ all_finite_of (numbers_of self) }
    {
        float::all_finite(&[self.a2, self.b2, self.c1, self.d1, self.e])
    }

    // The left side at k*PI/4.
    #[tactic(auto, unfolding(crate::specs::Crank::f_at_of))]
    fn f_at(self, k: u32) -> f64
        requires { k < 12 }
        ensures { result ≡ f_at_of self k }
    {
        let TrigEquation { a2, b2, c1, d1, e } = self;
        let u1 = unit(k % 8);
        let u2 = unit(2 * k % 8);
        a2 * u2.cos + b2 * u2.sin + c1 * u1.cos + d1 * u1.sin + e
    }

    // The k for which the left side at k*PI/4 + PI is largest in size, the last of equals: no root lies near u = infinity then.
    // (A loop, as the Rust's: max_by would take an order of all doubles, and std's total_cmp takes no NaN, which counts as the largest here.)
    #[tactic(auto, using(facts::specs::Count::up_turn, facts::specs::Count::up_end), unfolding(crate::specs::Crank::sample_of))]
    fn sample(self) -> u32
        ensures { (result ≡ sample_of self) × (result < 8) }
    {
        let mut k = 0;
        let mut largest = float::abs(self.f_at(4));
        for j in 1..8 {
            let v = float::abs(self.f_at(j + 4));
            if float::total_le(largest, v) {
                (k, largest) = (j, v);
            }
        }
        k
    }

    // The equation in s = t - k*PI/4, then in u: ascending coefficients.
    #[tactic(auto, unfolding(crate::specs::Crank::quartic_of))]
    fn quartic(self, k: u32) -> [f64; 5]
        requires { k < 8 }
        ensures { result ≡ quartic_of self k }
    {
        let TrigEquation { a2, b2, c1, d1, e } = self;
        let u1 = unit(k);
        let u2 = unit(2 * k % 8);
        let a = a2 * u2.cos + b2 * u2.sin;
        let b = b2 * u2.cos - a2 * u2.sin;
        let c = c1 * u1.cos + d1 * u1.sin;
        let d = d1 * u1.cos - c1 * u1.sin;
        [
            a + c + e,
            4.0 * b + 2.0 * d,
            -6.0 * a + 2.0 * e,
            -4.0 * b + 2.0 * d,
            a - c + e,
        ]
    }
}

// k, and the quartic in u.
#[derive(Clone, Copy)]
pub struct Crank {
    pub k: u32,
    pub q: [f64; 5],
}

// solve_trig up to its quartic; refused is what is not finite, of the five numbers or of the quartic.
#[tactic(auto, unfolding(crate::specs::Crank::crank_front_of))]
pub fn crank_front(trig: TrigEquation) -> Result<Crank, Refusal>
    ensures { result ≡ crank_front_of trig }
{
    if !trig.is_finite() {
        return Err(Refusal::NotFinite);
    }
    let k = trig.sample();
    let q = trig.quartic(k);
    if !float::all_finite(&q) {
        return Err(Refusal::AnswerNotFinite);
    }
    Ok(Crank { k, q })
}
