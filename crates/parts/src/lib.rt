// The parts of a formula: polynomials up to degree 4 over the whole numbers, exactly, and what is refused of them under 14 and 15.
// It rests on `refusals`; the readers of formulas rest on it.
#![tactic(auto)]

ghost use Rattle.std.specs.Prelude.{◌≡◌, [], ◌∷◌, ◌^◌, ◌≤◌, ◌<◌, pos, Ok};
ghost use Rattle.parts.specs.declared.Operator.TheVariants.{Product};
ghost use Rattle.parts.specs.Polynomial.{coefficient_of, trimmed};
ghost use Rattle.parts.specs.Value.{limited, joined, power_of};
ghost use Rattle.parts.specs.Products.{made_of, made_length, operator_of};
ghost use Rattle.parts.specs.Kept.{Ends, small_of};
ghost use Rattle.parts.specs.Part.{value_in, length_in};

pub use part::Part;
use refusals::Refusal;

mod part;

// 2^53, the largest size of a coefficient.
const MOST: u128 = 1 << 53;

#[derive(Clone, Copy, PartialEq, Eq, Debug)]
pub enum Operator {
    Sum,
    Difference,
    Product,
}

// The coefficients of a part, and how many there are up to the last that is no zero. (An array and a count: at most five, which product_at reads by place;
// nothing here has a heap.)
#[derive(Clone, Copy)]
struct Counted {
    coeffs: [i64; 5],
    len: usize,
    ghost ends: { Ends coeffs len },
}

// ---- the smallest parts

#[tactic(auto, using(crate::proofs::Entries::number_is))]
pub fn number(n: u64) -> Part
    requires { n ≤ 2 ^ 53 }
    ensures { value_in (Ok result) ≡ limited (pos n ∷ []) }
{
    Part {
        coeffs: [n as i64, 0, 0, 0, 0],
    }
}

pub fn letter() -> Part
    ensures { value_in (Ok result) ≡ Ok (pos 0 ∷ pos 1 ∷ []) }
{
    Part {
        coeffs: [0, 1, 0, 0, 0],
    }
}

// ---- coefficients

// That of t^k, zero beyond t^4. (Of any five numbers, not of a part's alone.)
pub fn entry(coeffs: [i64; 5], k: usize) -> i64
    ensures { result ≡ coefficient_of coeffs k }
{
    coeffs.get(k).copied().unwrap_or(0)
}

// How many there are up to the last that is no zero.
#[tactic(auto, using(crate::proofs::Entries::ended))]
pub fn len(a: Part) -> usize
    ensures value { result ≡ length_in a }
    ensures ends { Ends a.coeffs result }
{
    a.coeffs.iter().rposition(|&c| c != 0).map_or(0, |i| i + 1)
}

impl From<Part> for Counted {
    ghost from_gives = { λ a counted. (counted.coeffs ≡ a.coeffs) × (counted.len ≡ length_in a) };

    fn from(a: Part) -> Counted {
        let coeffs = a.coeffs;
        let len = len(a);
        Counted { coeffs, len }
    }
}

// ---- what is made of two

// The products for t^k are those of t^i and t^(k - i): where there are m coefficients and n, from the first i with k - i < n up to the last with i < m.
// (A loop: a fold over this range would read the same two places, and its closure would owe the bound of the sum, turn by turn.)
fn product_at(a: &Counted, b: &Counted, k: usize) -> i128
    requires { k < 5 }
    ensures { result ≡ made_of Product (coefficient_of a.now.coeffs) (coefficient_of b.now.coeffs) k }
{
    let mut sum: i128 = 0;
    for i in (k + 1).saturating_sub(b.len)..(k + 1).min(a.len) {
        let x = a.coeffs[i] as i128;
        let y = b.coeffs[k - i] as i128;
        sum += x * y;
    }
    sum
}

impl Operator {
    // The coefficient of t^k. (A match on the operator, which a text tells: closures in its place would make two copies more of `join` and `made`, and
    // `formula` would choose among the three all the same.)
    fn at(self, a: &Counted, b: &Counted, k: usize) -> i128
        requires { k < 5 }
        ensures { result ≡ made_of self (coefficient_of a.now.coeffs) (coefficient_of b.now.coeffs) k }
    {
        let x = a.coeffs[k] as i128;
        let y = b.coeffs[k] as i128;
        match self {
            Operator::Sum => x + y,
            Operator::Difference => x - y,
            Operator::Product => product_at(a, b, k),
        }
    }

    // How many coefficients there can be.
    fn len(self, m: usize, n: usize) -> usize
        requires { (m ≤ 5) × (n ≤ 5) }
        ensures { result ≡ made_length self m n }
    {
        match self {
            Operator::Sum | Operator::Difference => m.max(n),
            Operator::Product => (m + n).saturating_sub(1),
        }
    }
}

// ---- joins

// A coefficient, where it is not above 2^53 in size.
#[tactic(auto, using(crate::proofs::Products::narrow_is, crate::proofs::Products::narrow_size), unfolding(crate::specs::Kept::small_of))]
fn small(c: i128) -> Result<i64, Refusal>
    ensures { result ≡ small_of c }
{
    if MOST < c.unsigned_abs() {
        return Err(Refusal::CoefficientTooLarge);
    }
    Ok(c as i64)
}

// What is made where its degree is at most 4. (k is a degree and a place: `coeffs.iter_mut().enumerate().take(end)` would count the same k.)
fn made(op: Operator, a: &Counted, b: &Counted, end: usize) -> Result<Part, Refusal>
    requires { (end ≡ made_length op a.now.len b.now.len) × (end ≤ 5) }
    ensures { value_in result ≡ limited (operator_of op (trimmed a.now.coeffs) (trimmed b.now.coeffs)) }
{
    let mut coeffs = [0; 5];
    for k in 0..end {
        let c = op.at(a, b, k);
        coeffs[k] = small(c)?;
    }
    Ok(Part { coeffs })
}

// The left operand first, then the right, then their operator.
#[tactic(auto, using(crate::proofs::Joins::join_high), unfolding(crate::specs::Value::joined))]
pub fn join(
    op: Operator,
    a: Result<Part, Refusal>,
    b: Result<Part, Refusal>,
) -> Result<Part, Refusal>
    ensures { value_in result ≡ joined (operator_of op) (value_in a) (value_in b) }
{
    let x = Counted::from(a?);
    let y = Counted::from(b?);
    let end = op.len(x.len, y.len);
    if 5 < end {
        return Err(Refusal::DegreeTooHigh);
    }
    made(op, &x, &y, end)
}

// Repeated products from 1.
#[tactic(auto, using(crate::proofs::Joins::power_next), unfolding(crate::specs::Value::power_of, crate::specs::Value::limited))]
pub fn power(a: Result<Part, Refusal>, d: u64) -> Result<Part, Refusal>
    ensures { value_in result ≡ power_of (value_in a) d }
{
    let base = a?;
    let mut r = Ok(number(1));
    for _ in 0..d {
        r = join(Operator::Product, r, Ok(base));
    }
    r
}
