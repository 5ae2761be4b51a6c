// equation.rs on all bits: quadratics with a caller's tolerances.
// It rests on `refusals`, `float`, `sqrt` and `solution`; the hall file and the C functions rest on it.
#![tactic(auto)]

ghost use Rattle.std.specs.Prelude.{◌≡◌};
ghost use Rattle.equation.specs.Quadratic.{quadratic_centre_of, linear_of, is_grazing_of, two_of, solve_quadratic_of, quadratic_of};

use refusals::Refusal;
use solution::QuadraticSolution;

// The middle of the roots, and 0 where the equation is near linear: no Option, since the Rust's f64 is what the C function hands out.
#[tactic(auto, unfolding(crate::specs::Quadratic::quadratic_centre_of))]
pub fn quadratic_centre(a: f64, b: f64, angular: f64) -> f64
    ensures { result ≡ quadratic_centre_of a b angular }
{
    let t0 = -b / (2.0 * a);
    if float::abs(a) > angular && float::is_finite(t0) {
        t0
    } else {
        0.0
    }
}

// (a, b and c one by one, here and below: a struct, as TrigEquation is, would be made for one call, and each of these formulas would take it apart again.)
#[tactic(auto, unfolding(crate::specs::Quadratic::linear_of))]
fn linear(b: f64, c: f64, confusion: f64) -> QuadraticSolution
    ensures { result ≡ linear_of b c confusion }
{
    if float::abs(b) <= confusion {
        return QuadraticSolution::Degenerate;
    }
    QuadraticSolution::Linear(-c / b)
}

// Whether the half-separation of the roots, root / (2|a|), is within the band or the discriminant's rounding noise.
#[tactic(auto, unfolding(crate::specs::Quadratic::is_grazing_of))]
fn is_grazing(a: f64, b: f64, c: f64, mid: f64, root: f64, confusion: f64) -> bool
    ensures { result ≡ is_grazing_of a b c mid root confusion }
{
    let twice = 2.0 * float::abs(a);
    let noise = sqrt::sqrt(4.0 * f64::EPSILON * (b * b + 4.0 * float::abs(a * c))) / twice;
    root / twice <= confusion * (1.0 + float::abs(mid)) + noise
}

// Cancellation-free: the root of larger size first, the other from the product c/a.
#[tactic(auto, unfolding(crate::specs::Quadratic::two_of))]
fn two(a: f64, b: f64, c: f64, root: f64) -> QuadraticSolution
    ensures { result ≡ two_of a b c root }
{
    let q = -0.5 * (b + float::copysign(root, b));
    let r1 = q / a;
    let r2 = c / q;
    QuadraticSolution::Two(float::min(r1, r2), float::max(r1, r2))
}

// The root of |disc| serves twice: from the root of a disc that is not below 0 it differs at -0 alone, and there copysign decides the sign.
#[tactic(auto, using(crate::proofs::Solving::same_two), unfolding(crate::specs::Quadratic::solve_quadratic_of))]
pub fn solve_quadratic(a: f64, b: f64, c: f64, confusion: f64, angular: f64) -> QuadraticSolution
    ensures { result ≡ solve_quadratic_of a b c confusion angular }
{
    if float::abs(a) <= angular {
        return linear(b, c, confusion);
    }
    let disc = b * b - 4.0 * a * c;
    let mid = -b / (2.0 * a);
    let root = sqrt::sqrt(float::abs(disc));
    if is_grazing(a, b, c, mid, root, confusion) {
        return QuadraticSolution::One(mid);
    }
    if disc < 0.0 {
        return QuadraticSolution::Empty;
    }
    two(a, b, c, root)
}

// The answer; refused is what is not finite, of the numbers handed in or of those in the answer.
#[tactic(auto, unfolding(crate::specs::Quadratic::quadratic_of))]
pub fn quadratic(
    a: f64,
    b: f64,
    c: f64,
    confusion: f64,
    angular: f64,
) -> Result<QuadraticSolution, Refusal>
    ensures { result ≡ quadratic_of a b c confusion angular }
{
    if !float::all_finite(&[a, b, c]) {
        return Err(Refusal::NotFinite);
    }
    let solution = solve_quadratic(a, b, c, confusion, angular);
    if !solution.is_finite() {
        return Err(Refusal::AnswerNotFinite);
    }
    Ok(solution)
}
