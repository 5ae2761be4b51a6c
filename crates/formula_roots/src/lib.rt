// The roots of a formula as it was typed: request Three of document 02. Its text is expanded, and the coefficients are handed to the list operation.
// It rests on `formula`, which reads and expands, and on `poly` (real_roots); the hall file and the C functions rest on it.
#![tactic(auto)]

ghost use Rattle.std.specs.Prelude.{◌≡◌};
ghost use Rattle.roots.specs.Roots.{list_of};
ghost use Rattle.roots.specs.Listed.{Within};
ghost use Rattle.poly.specs.Coefficients.{degree_left};
ghost use Rattle.poly.specs.RealRoots.{roots_in};
ghost use Rattle.formula.specs.Formula.{formula_of};
ghost use Rattle.tally.specs.Tally.{answer_in, systems_in};
ghost use Rattle.formula_roots.specs.FormulaRoots.{handed_on, formula_roots_of, formula_systems_of};

use angle::Sine;
use refusals::Refusal;
use roots::Roots;
use tally::Tallied;

// 13, 14 and 15 are refused by the text; 2 by the list, as for any list.
// Demand 1 holds of the answer: at most four finite roots, each counting at least once, together at most the degree left.
// `sine` is the mode: the third angle's sine is that of the rounded cosine, as in the reference build, or of the exact one.
#[tactic(auto, using(crate::proofs::Solved::ways))]
pub fn formula_roots(sine: Sine, text: &[u8], tol: f64) -> Result<Tallied<Roots>, Refusal>
    ensures value { (answer_in result ≡ formula_roots_of sine text.now tol)
        × Within (degree_left (handed_on (formula_of text.now))) (list_of (roots_in (answer_in result))) }
    ensures systems { systems_in result ≡ formula_systems_of sine text.now tol }
{
    let e = formula::expand(text)?;
    poly::real_roots(sine, &e.coeffs[..e.len], tol)
}
