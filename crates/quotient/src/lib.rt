// What factorize does with the large factors: their product, the quotient of g by it, and the way back from a second scaling.
// It rests on `ldexp` and `factors`; factorize rests on it.
#![tactic(auto)]

ghost use Rattle.std.specs.Prelude.{◌≡◌, ◌+◌, ◌^◌, ◌≤◌, ◌<◌, nat_abs, length};
ghost use Rattle.factors.specs.Factors.{degree_of, Sized};
ghost use Rattle.quotient.specs.Quotient.{mul_of, product_of, quotient_of, usable_of, merged_of};

use factors::Factors;

// The polynomial l[0] + l[1]*y + .. + l[dl]*y^dl, in fixed memory. (Not a horner::Polynomial: quotient takes any dl, which that type bounds by 4.)
#[derive(Clone, Copy)]
pub struct Monic {
    pub l: [f64; 5],
    pub dl: usize,
}

impl Monic {
    // Times f, in place, from the top coefficient down: coefficient k is made of l[k] and those below it, and none of them is overwritten yet. So no second
    // array is made. From low on k - j is at most dl: the zeros after l[dl] are not multiplied, which an infinite coefficient of f would make NaNs.
    #[tactic(auto, using(crate::proofs::InPlace::terms), unfolding(crate::specs::Quotient::mul_of))]
    fn multiply(&mut self, f: &[f64])
        requires { (0 < length f.now) × (self.old.dl + length f.now ≤ 5) }
        ensures { self.new ≡ mul_of self.old f.now }
    {
        for k in (0..5usize).rev() {
            let low = k.saturating_sub(self.dl);
            let mut acc = 0.0;
            for j in (low..f.len().min(k + 1)).rev() {
                acc += self.l[k - j] * f[j];
            }
            self.l[k] = acc;
        }
        self.dl += f.len() - 1;
    }
}

// The same by value, as the Rust has it.
pub fn mul(mut p: Monic, f: &[f64]) -> Monic
    requires { (0 < length f.now) × (p.dl + length f.now ≤ 5) }
    ensures { result ≡ mul_of p f.now }
{
    p.multiply(f);
    p
}

#[tactic(auto, using(crate::proofs::Merging::loops), unfolding(crate::specs::Quotient::mul_of, crate::specs::Quotient::product_of))]
pub fn product(large: Factors) -> Monic
    requires { degree_of large ≤ 4 }
    ensures { result ≡ product_of large }
{
    let mut p = Monic {
        l: [1.0, 0.0, 0.0, 0.0, 0.0],
        dl: 0,
    };
    for r in &large.lin[..large.nlin] {
        p.multiply(&[-*r, 1.0]);
    }
    for q in &large.quad[..large.nquad] {
        p.multiply(&[q.be, q.al, 1.0]);
    }
    p
}

// The inner loop takes off g[i] the products that the coefficients found so far make. By index, as in multiply: s[i] is made of the places before it, and where
// j runs up, i - j runs down, so that a zip would cut two slices at ends of its own.
#[tactic(auto, using(crate::proofs::Merging::loops), unfolding(crate::specs::Quotient::acc_of, crate::specs::Quotient::quotient_of))]
pub fn quotient(g: [f64; 5], p: Monic, small: usize) -> [f64; 5]
    requires { small ≤ 4 }
    ensures { result ≡ quotient_of g p small }
{
    let mut s = [0.0; 5];
    for i in 0..small + 1 {
        let mut acc = g[i];
        for j in 1..i.min(p.dl) + 1 {
            acc -= p.l[j] * s[i - j];
        }
        s[i] = acc / p.l[0];
    }
    s
}

#[tactic(auto, unfolding(crate::specs::Quotient::usable_of))]
pub fn usable(s: [f64; 5], small: usize) -> bool
    requires { small ≤ 4 }
    ensures { result ≡ usable_of s small }
{
    float::all_finite(&s[..=small]) && s[0] != 0.0 && s[small] != 0.0
}

#[tactic(auto, using(crate::proofs::Merging::merging))]
pub fn merged(large: Factors, inner: Factors, e: i32) -> Factors
    requires sized { Sized inner }
    requires e_size { nat_abs e ≤ 2 ^ 13 }
    ensures { result ≡ merged_of large inner e }
{
    let mut m = large;
    for r in &inner.lin[..inner.nlin] {
        m = m.push_lin(ldexp::ldexp(*r, e));
    }
    for q in &inner.quad[..inner.nquad] {
        m = m.push_quad(ldexp::ldexp(q.al, e), ldexp::ldexp(q.be, 2 * e));
    }
    m
}
