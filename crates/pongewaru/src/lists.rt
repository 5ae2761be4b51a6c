// Lists of roots in lent bytes: any number of coefficients in; the number of roots and four places with their multiplicities and kinds, zeros after the last
// root, and how many systems were solved for them, out as doubles. The answer is how many bytes are stored, 112, or the number of the refusal, that of the C
// functions where the bytes are no whole doubles, or 0 where those lent are too few: nothing is stored then.
ghost use Rattle.std.specs.Prelude.{◌≡◌};
ghost use Rattle.angle.specs.declared.Sine.TheVariants.{OfExact};
ghost use Rattle.angle.specs.Third.{sine_numbered};
ghost use Rattle.lent_bytes.specs.Bytes.{Answered};
ghost use Rattle.roots.specs.Listed.{Fits};
ghost use Rattle.pongewaru.specs.Lists.{told_numbers, not_doubles, list_refusal, list_numbers};

use crate::SINE_OF_EXACT;
use angle::Sine;
use lent_bytes::answer;
use lent_bytes::lists::root_numbers;
use lent_coefficients::short_at;
use refusals::Refusal;
use roots::Roots;
use tally::Tallied;

// The list, and how many systems were solved for it.
#[tactic(auto, unfolding(crate::specs::Lists::told_numbers))]
pub fn told_numbers(list: Tallied<Roots>) -> [f64; 14]
    requires { Fits list.value }
    ensures { result ≡ told_numbers list.value list.systems }
{
    let mut numbers = [list.systems as f64; 14];
    numbers[..13].copy_from_slice(&root_numbers(list.value));
    numbers
}

// The bytes are no whole doubles.
pub fn not_doubles(s: &[u8]) -> bool
    ensures { result ≡ not_doubles s.now }
{
    s.len() % 8 != 0
}

#[unsafe(no_mangle)]
#[tactic(auto, using(crate::proofs::Listing::list_told), unfolding(crate::specs::Lists::answer_at, lent_bytes::specs::Bytes::unless))]
pub extern "C" fn pongewaru_real_roots_by(sine: u32, coeffs: &[u8], tol: f64, out: &mut [u8]) -> u64
    ensures { Answered (list_refusal (sine_numbered sine) coeffs.now tol) (list_numbers (sine_numbered sine) coeffs.now tol)
        out.old result out.new }
{
    if not_doubles(coeffs) {
        return answer::<0>(out, Err(Refusal::CutDouble));
    }
    let list = poly::real_roots(Sine::from(sine), &short_at(coeffs), tol);
    answer(out, list.map(told_numbers))
}

#[unsafe(no_mangle)]
#[tactic(auto, unfolding(angle::specs::Third::sine_numbered))]
pub extern "C" fn pongewaru_real_roots(coeffs: &[u8], tol: f64, out: &mut [u8]) -> u64
    ensures { Answered (list_refusal OfExact coeffs.now tol) (list_numbers OfExact coeffs.now tol) out.old result out.new }
{
    pongewaru_real_roots_by(SINE_OF_EXACT, coeffs, tol, out)
}
