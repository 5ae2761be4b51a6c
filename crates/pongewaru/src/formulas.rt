// Formulas from their texts in lent bytes: their roots out as for `pongewaru_real_roots`, or their coefficients, how many and all five, as doubles. The answer
// is how many bytes are stored, 112 or 48, or the number of the refusal, or 0 where those lent are too few: nothing is stored then. A text of more than 255
// bytes, which no record holds, is refused, and so the depth of its brackets, and with it the stack, is bounded.
ghost use Rattle.std.specs.Prelude.{◌≡◌, ◌≤◌};
ghost use Rattle.angle.specs.declared.Sine.TheVariants.{OfExact};
ghost use Rattle.angle.specs.Third.{sine_numbered};
ghost use Rattle.lent_bytes.specs.Bytes.{Answered};
ghost use Rattle.pongewaru.specs.Formulas.{too_long, formula_refusal, formula_numbers, expanded_numbers, coefficients_refusal, coefficients_numbers};

use crate::SINE_OF_EXACT;
use crate::lists::told_numbers;
use angle::Sine;
use formula::Expanded;
use lent_bytes::answer;
use refusals::Refusal;

fn too_long(text: &[u8]) -> bool
    ensures { result ≡ too_long text.now }
{
    255 < text.len()
}

#[unsafe(no_mangle)]
#[tactic(auto, using(crate::proofs::Listing::text_told), unfolding(lent_bytes::specs::Bytes::unless))]
pub extern "C" fn pongewaru_formula_roots_by(
    sine: u32,
    text: &[u8],
    tol: f64,
    out: &mut [u8],
) -> u64
    ensures { Answered (formula_refusal (sine_numbered sine) text.now tol) (formula_numbers (sine_numbered sine) text.now tol)
        out.old result out.new }
{
    if too_long(text) {
        return answer::<0>(out, Err(Refusal::TextTooLong));
    }
    let list = formula_roots::formula_roots(Sine::from(sine), text, tol);
    answer(out, list.map(told_numbers))
}

#[unsafe(no_mangle)]
#[tactic(auto, unfolding(angle::specs::Third::sine_numbered))]
pub extern "C" fn pongewaru_formula_roots(text: &[u8], tol: f64, out: &mut [u8]) -> u64
    ensures { Answered (formula_refusal OfExact text.now tol) (formula_numbers OfExact text.now tol) out.old result out.new }
{
    pongewaru_formula_roots_by(SINE_OF_EXACT, text, tol, out)
}

fn expanded_numbers(e: Expanded) -> [f64; 6]
    requires { e.len ≤ 5 }
    ensures { result ≡ expanded_numbers e }
{
    let mut numbers = [e.len as f64; 6];
    numbers[1..].copy_from_slice(&e.coeffs);
    numbers
}

#[unsafe(no_mangle)]
#[tactic(auto, using(crate::proofs::Listing::coefficients_told), unfolding(lent_bytes::specs::Bytes::unless))]
pub extern "C" fn pongewaru_formula_coefficients(text: &[u8], out: &mut [u8]) -> u64
    ensures { Answered (coefficients_refusal text.now) (coefficients_numbers text.now) out.old result out.new }
{
    if too_long(text) {
        return answer::<0>(out, Err(Refusal::TextTooLong));
    }
    let e = formula::expand(text);
    answer(out, e.map(expanded_numbers))
}
