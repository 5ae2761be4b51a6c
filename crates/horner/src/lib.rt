// Evaluation: two_prod and the discriminant, a polynomial's value and slope by Horner's rule, plain and compensated, its derivatives and its
// Taylor coefficients. Each function is the one of poly.rs of that name, on all bits. It rests on `float` and `facts`; refining, factoring, scaling and
// polishing rest on it.
#![tactic(auto, using(crate::proofs::Loops::turns), unfolding(crate::proofs::Loops::definitions))]

ghost use Rattle.std.specs.Prelude.{◌≡◌, ◌≤◌};
ghost use Rattle.horner.specs.Product.{split_high, two_prod_of, discriminant_of};
ghost use Rattle.horner.specs.Horner.{value_slope_of, value_slope_compensated_of};
ghost use Rattle.horner.specs.Taylor.{derivs12_of, taylor_of};

#[derive(Clone, Copy)]
pub struct ValueSlope {
    pub value: f64,
    pub slope: f64,
}

// A product, and Dekker's formula for its rounding error.
#[derive(Clone, Copy)]
pub struct TwoProd {
    pub prod: f64,
    pub err: f64,
}

// The first and second derivative.
#[derive(Clone, Copy)]
pub struct Derivs {
    pub d1: f64,
    pub d2: f64,
}

// f[0] + f[1]*y + .. + f[d]*y^d, by value in fixed memory, as Scaled has f and d.
#[derive(Clone, Copy)]
pub struct Polynomial {
    pub f: [f64; 5],
    pub d: usize,
    ghost degree: { d ≤ 4 },
}

impl Polynomial {
    pub fn value_slope(self, y: f64) -> ValueSlope
        ensures { result ≡ value_slope_of self.f self.d y }
    {
        let mut v = self.f[self.d];
        let mut s = 0.0;
        for &c in self.f[..self.d].iter().rev() {
            s = s * y + v;
            v = v * y + c;
        }
        ValueSlope { value: v, slope: s }
    }

    pub fn value_slope_compensated(self, y: f64) -> ValueSlope
        ensures { result ≡ value_slope_compensated_of self.f self.d y }
    {
        let mut v = self.f[self.d];
        let mut err = 0.0;
        let mut s = 0.0;
        for &c in self.f[..self.d].iter().rev() {
            s = s * y + v;
            let t = two_prod(v, y);
            let sum = t.prod + c;
            let back = sum - t.prod;
            let sum_err = (t.prod - (sum - back)) + (c - back);
            err = err * y + (t.err + sum_err);
            v = sum;
        }
        ValueSlope {
            value: v + err,
            slope: s,
        }
    }

    pub fn derivs12(self, y: f64) -> Derivs
        ensures { result ≡ derivs12_of self.f self.d y }
    {
        let mut d1 = 0.0;
        let mut d2 = 0.0;
        // (By index: the place's number is a factor too; an enumerated iterator, its first skipped and reversed, would give both as a pair.)
        for i in (1..self.d + 1).rev() {
            let k = i as f64;
            d1 = d1 * y + k * self.f[i];
            if i >= 2 {
                d2 = d2 * y + k * (k - 1.0) * self.f[i];
            }
        }
        Derivs { d1, d2 }
    }

    pub fn taylor(self, y: f64) -> [f64; 5]
        ensures { result ≡ taylor_of self.f self.d y }
    {
        let mut t = self.f;
        for k in 0..self.d {
            // (By index: a turn changes a place by the one above it.)
            for i in (k..self.d).rev() {
                t[i] = t[i] + y * t[i + 1];
            }
        }
        t
    }
}

// 2^27 + 1
const SPLIT: f64 = 134217729.0;

// The upper half of x's digits.
fn split_high(x: f64) -> f64
    ensures { result ≡ split_high x }
{
    let c = SPLIT * x;
    c - (c - x)
}

pub fn two_prod(a: f64, b: f64) -> TwoProd
    ensures { result ≡ two_prod_of a b }
{
    let p = a * b;
    let ah = split_high(a);
    let al = a - ah;
    let bh = split_high(b);
    let bl = b - bh;
    TwoProd {
        prod: p,
        err: ((ah * bh - p) + ah * bl + al * bh) + al * bl,
    }
}

pub fn discriminant(al: f64, be: f64) -> f64
    ensures { result ≡ discriminant_of al be }
{
    let sq = two_prod(al, al);
    (sq.prod - 4.0 * be) + sq.err
}
