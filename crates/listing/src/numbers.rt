// What the solver answers to the numbers, or the text, of a record that stands whole.
ghost use Rattle.std.specs.Prelude.{◌≡◌};
ghost use Rattle.records.specs.Records.{Whole};
ghost use Rattle.listing.specs.Answers.{polynomial_at, quadratic_at, crank_at, contact_at, formula_at};
ghost use Rattle.records.specs.declared.Kind.TheVariants.{Polynomial, Quadratic, Crank, Contact, Formula};

use angle::Sine;
use contact::{Circle, Path};
use crank::CrankAnswer;
use float::f64_at;
use lent_bytes::{doubles_at, f64s_at};
use refusals::Refusal;
use roots::Roots;
use solution::QuadraticSolution;
use trig_quartic::TrigEquation;

// (Whole is said of a file, a place and a kind at once, and each reader is of one kind: a struct with it as a ghost field would be made for one call.)
#[tactic(auto, using(lent_bytes::proofs::Doubles::f64s_taken), unfolding(crate::specs::Answers::polynomial_at))]
pub fn polynomial_at(sine: Sine, s: &[u8], at: usize) -> Result<Roots, Refusal>
    requires { Whole Polynomial s.now at }
    ensures { result ≡ polynomial_at sine s.now at }
{
    let count = s[at + 2] as usize;
    let coeffs = f64s_at(s, at + 11, count);
    let tol = f64_at(s, at + 3);
    Ok(poly::real_roots(sine, &coeffs[..count], tol)?.value)
}

#[tactic(auto, using(lent_bytes::proofs::Doubles::f64s_placed), unfolding(crate::specs::Answers::quadratic_at))]
pub fn quadratic_at(s: &[u8], at: usize) -> Result<QuadraticSolution, Refusal>
    requires { Whole Quadratic s.now at }
    ensures { result ≡ quadratic_at s.now at }
{
    let [confusion, angular, a, b, c] = doubles_at::<5>(s, at + 2);
    equation::quadratic(a, b, c, confusion, angular)
}

#[tactic(auto, using(lent_bytes::proofs::Doubles::f64s_placed), unfolding(crate::specs::Answers::crank_at))]
pub fn crank_at(sine: Sine, s: &[u8], at: usize) -> Result<CrankAnswer, Refusal>
    requires { Whole Crank s.now at }
    ensures { result ≡ crank_at sine s.now at }
{
    let [confusion, a2, b2, c1, d1, e] = doubles_at::<6>(s, at + 2);
    let trig = TrigEquation { a2, b2, c1, d1, e };
    Ok(crank::crank(sine, confusion, trig)?.value)
}

#[tactic(auto, using(lent_bytes::proofs::Doubles::f64s_placed), unfolding(crate::specs::Answers::contact_at))]
pub fn contact_at(sine: Sine, s: &[u8], at: usize) -> Result<Roots, Refusal>
    requires { Whole Contact s.now at }
    ensures { result ≡ contact_at sine s.now at }
{
    let [confusion, x0, x1, x2, y0, y1, y2, cx, cy, r] = doubles_at::<10>(s, at + 2);
    let path = Path {
        x0,
        x1,
        x2,
        y0,
        y1,
        y2,
    };
    let circle = Circle { cx, cy, r };
    Ok(contact::pin_contact(sine, confusion, path, circle)?.value)
}

#[tactic(auto, unfolding(crate::specs::Answers::formula_at))]
pub fn formula_at(sine: Sine, s: &[u8], at: usize) -> Result<Roots, Refusal>
    requires { Whole Formula s.now at }
    ensures { result ≡ formula_at sine s.now at }
{
    let length = s[at + 2] as usize;
    let tol = f64_at(s, at + 3);
    let text = at + 11;
    let end = text + length;
    Ok(formula_roots::formula_roots(sine, &s[text..end], tol)?.value)
}
