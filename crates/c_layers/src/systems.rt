// Square systems: all numbers of an answer as doubles, one after another, in lent bytes; how many bytes are stored. Nothing is stored where the bytes handed in
// are short, or where those lent are too few.
ghost use Rattle.std.specs.Prelude.{◌≡◌, [], ◌∷◌, ◌≤◌, ltb, length};
ghost use Rattle.square.specs.Square.{solve_square_of};
ghost use Rattle.refine.specs.Refine.{refine_of};
ghost use Rattle.refine.specs.Systems.{cubic_system, quartic_system, peel_system};
ghost use Rattle.refine.specs.Newton.{newton_cubic_of};
ghost use Rattle.lent_bytes.specs.Bytes.{f64s_at, unless, Stored};
ghost use Rattle.c_layers.specs.Numbers.{three_rows, four_rows, step_numbers};

use lent_bytes::{doubles_at, store};

// 1 and the unknowns, or zeros where there is no answer. (Five places, of which N + 1 are told: no const argument can be computed.)
fn store_solution<const N: usize>(m: [[f64; N]; N], b: [f64; N], tol: f64, out: &mut [u8]) -> u64
    requires { N ≤ 4 }
    ensures { Stored (step_numbers N (solve_square_of N m.entry b.entry tol)) out.old result out.new }
{
    let Some(x) = square::solve_square(m, b, tol) else {
        return store(out, &[0.0; 5][..N + 1]);
    };
    let mut numbers = [1.0; 5];
    numbers[1..N + 1].copy_from_slice(&x);
    store(out, &numbers[..N + 1])
}

// Of a system row by row, and its right-hand side. (A function for each size and each system, as C calls them: they share store_solution and refine.)
#[unsafe(no_mangle)]
pub extern "C" fn pongewaru_solve_square3(s: &[u8], tol: f64, out: &mut [u8]) -> u64
    ensures { Stored (unless [] (ltb (length s.now) 96)
        (step_numbers 3 (solve_square_of 3 (three_rows s.now) (f64s_at 3 s.now 72) tol))) out.old result out.new }
{
    if s.len() < 96 {
        return 0;
    }
    let m = [doubles_at(s, 0), doubles_at(s, 24), doubles_at(s, 48)];
    store_solution(m, doubles_at(s, 72), tol, out)
}

#[unsafe(no_mangle)]
pub extern "C" fn pongewaru_solve_square4(s: &[u8], tol: f64, out: &mut [u8]) -> u64
    ensures { Stored (unless [] (ltb (length s.now) 160)
        (step_numbers 4 (solve_square_of 4 (four_rows s.now) (f64s_at 4 s.now 128) tol))) out.old result out.new }
{
    if s.len() < 160 {
        return 0;
    }
    let m = [
        doubles_at(s, 0),
        doubles_at(s, 32),
        doubles_at(s, 64),
        doubles_at(s, 96),
    ];
    store_solution(m, doubles_at(s, 128), tol, out)
}

#[unsafe(no_mangle)]
pub extern "C" fn pongewaru_refine_cubic(b: f64, c: f64, d: f64, x: &[u8], out: &mut [u8]) -> u64
    ensures { Stored (unless [] (ltb (length x.now) 24) (refine_of 3 (cubic_system b c d) (f64s_at 3 x.now 0)))
        out.old result out.new }
{
    if x.len() < 24 {
        return 0;
    }
    let refined = refine::refine_cubic(b, c, d, doubles_at(x, 0));
    store(out, &refined.value)
}

#[unsafe(no_mangle)]
pub extern "C" fn pongewaru_refine_quartic(
    b: f64,
    c: f64,
    d: f64,
    e: f64,
    x: &[u8],
    out: &mut [u8],
) -> u64
    ensures { Stored (unless [] (ltb (length x.now) 32)
        (refine_of 4 (quartic_system b c d e) (f64s_at 4 x.now 0))) out.old result out.new }
{
    if x.len() < 32 {
        return 0;
    }
    let refined = refine::refine_quartic(b, c, d, e, doubles_at(x, 0));
    store(out, &refined.value)
}

#[unsafe(no_mangle)]
pub extern "C" fn pongewaru_refine_peel(
    b: f64,
    c: f64,
    d: f64,
    e: f64,
    x: &[u8],
    out: &mut [u8],
) -> u64
    ensures { Stored (unless [] (ltb (length x.now) 32) (refine_of 4 (peel_system b c d e) (f64s_at 4 x.now 0)))
        out.old result out.new }
{
    if x.len() < 32 {
        return 0;
    }
    let refined = refine::refine_peel(b, c, d, e, doubles_at(x, 0));
    store(out, &refined.value)
}

#[unsafe(no_mangle)]
pub extern "C" fn pongewaru_newton_cubic(p0: f64, p1: f64, p2: f64, p3: f64, p4: f64, y: f64) -> f64
    ensures { result ≡ newton_cubic_of (p0 ∷ p1 ∷ p2 ∷ p3 ∷ p4 ∷ []) y }
{
    refine::newton_cubic([p0, p1, p2, p3, p4], y)
}
