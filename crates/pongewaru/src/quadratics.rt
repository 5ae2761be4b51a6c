// Quadratics and the crank's quartic in lent bytes. A quadratic's answer is three doubles: its number, 0 to 4 for two, one, linear, degenerate and empty, and
// its first and second place, NaN where there is none. What is said is how many bytes are stored, or the number of the refusal, or 0 where the bytes lent are
// too few: nothing is stored then.
ghost use Rattle.std.specs.Prelude.{◌≡◌};
ghost use Rattle.solution.specs.Solution.{shifted_of, touching_at_of};
ghost use Rattle.equation.specs.Quadratic.{quadratic_centre_of, solve_quadratic_of, quadratic_of};
ghost use Rattle.trig_quartic.specs.Crank.{crank_front_of};
ghost use Rattle.lent_bytes.specs.Bytes.{Stored};
ghost use Rattle.pongewaru.specs.Answers.{AnsweredBy};
ghost use Rattle.pongewaru.specs.Quadratics.{solution_of, solution_numbers, trig_of, front_numbers};
ghost use Rattle.pongewaru.specs.Inquiries.{reply_at};

use lent_bytes::{answer, store};
use solution::QuadraticSolution;
use trig_quartic::{Crank, TrigEquation, crank_front};

// (No From here nor below: the trait and the types are of other crates, so that it would take a type of its own.)
#[tactic(auto, using(lent_bytes::proofs::Counts::counts), unfolding(crate::specs::Quadratics::solution_numbers))]
fn solution_numbers(s: QuadraticSolution) -> [f64; 3]
    ensures { result ≡ solution_numbers s }
{
    match s {
        QuadraticSolution::Two(x, y) => [0.0, x, y],
        QuadraticSolution::One(x) => [1.0, x, f64::NAN],
        QuadraticSolution::Linear(x) => [2.0, x, f64::NAN],
        QuadraticSolution::Degenerate => [3.0, f64::NAN, f64::NAN],
        QuadraticSolution::Empty => [4.0, f64::NAN, f64::NAN],
    }
}

#[unsafe(no_mangle)]
#[tactic(auto, using(crate::proofs::Answers::told_by))]
pub extern "C" fn pongewaru_quadratic(
    a: f64,
    b: f64,
    c: f64,
    confusion: f64,
    angular: f64,
    out: &mut [u8],
) -> u64
    ensures { AnsweredBy solution_numbers (quadratic_of a b c confusion angular) out.old result out.new }
{
    let s = equation::quadratic(a, b, c, confusion, angular);
    answer(out, s.map(solution_numbers))
}

#[unsafe(no_mangle)]
pub extern "C" fn pongewaru_solve_quadratic(
    a: f64,
    b: f64,
    c: f64,
    confusion: f64,
    angular: f64,
    out: &mut [u8],
) -> u64
    ensures { Stored (solution_numbers (solve_quadratic_of a b c confusion angular)) out.old result out.new }
{
    let s = equation::solve_quadratic(a, b, c, confusion, angular);
    store(out, &solution_numbers(s))
}

#[unsafe(no_mangle)]
pub extern "C" fn pongewaru_quadratic_centre(a: f64, b: f64, angular: f64) -> f64
    ensures { result ≡ quadratic_centre_of a b angular }
{
    equation::quadratic_centre(a, b, angular)
}

// The answer whose number is n.
#[tactic(auto, unfolding(crate::specs::Quadratics::solution_of))]
fn solution(n: u32, x: f64, y: f64) -> QuadraticSolution
    ensures { result ≡ solution_of n x y }
{
    match n {
        0 => QuadraticSolution::Two(x, y),
        1 => QuadraticSolution::One(x),
        2 => QuadraticSolution::Linear(x),
        3 => QuadraticSolution::Degenerate,
        _ => QuadraticSolution::Empty,
    }
}

#[unsafe(no_mangle)]
pub extern "C" fn pongewaru_shifted(n: u32, x: f64, y: f64, t0: f64, out: &mut [u8]) -> u64
    ensures { Stored (solution_numbers (shifted_of (solution_of n x y) t0)) out.old result out.new }
{
    let s = solution(n, x, y);
    store(out, &solution_numbers(s.shifted(t0)))
}

// The reply is a number, 0 for no.
#[unsafe(no_mangle)]
pub extern "C" fn pongewaru_touching_at(
    n: u32,
    x: f64,
    y: f64,
    vertex: f64,
    touches: u32,
    out: &mut [u8],
) -> u64
    ensures { Stored (solution_numbers (touching_at_of (solution_of n x y) vertex (reply_at touches))) out.old result out.new }
{
    let s = solution(n, x, y);
    store(out, &solution_numbers(s.touching_at(vertex, touches != 0)))
}

// k, and the quartic's coefficients, ascending.
fn front_numbers(front: Crank) -> [f64; 6]
    ensures { result ≡ front_numbers front }
{
    let mut numbers = [f64::from(front.k); 6];
    numbers[1..].copy_from_slice(&front.q);
    numbers
}

#[unsafe(no_mangle)]
#[tactic(auto, using(crate::proofs::Answers::told_by))]
pub extern "C" fn pongewaru_crank_front(
    a2: f64,
    b2: f64,
    c1: f64,
    d1: f64,
    e: f64,
    out: &mut [u8],
) -> u64
    ensures { AnsweredBy front_numbers (crank_front_of (trig_of a2 b2 c1 d1 e)) out.old result out.new }
{
    let front = crank_front(TrigEquation { a2, b2, c1, d1, e });
    answer(out, front.map(front_numbers))
}
