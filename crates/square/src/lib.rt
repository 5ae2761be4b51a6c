// Elimination with pivoting of a square system of any size, `solve_square` of solve.rs. It rests on `float` and `facts`; refining rests on it.
#![tactic(auto, using(crate::proofs::Laws::laws), unfolding(crate::proofs::Laws::definitions))]

ghost use Rattle.std.specs.Prelude.{◌≡◌, ◌<◌, ◌≤◌, length};
ghost use Rattle.square.specs.Square.{size_sum_of, least_pivot_of, larger_of, pivot_of, lines, lose_of, remainder_of, substitute_of, solve_square_of};

// The sum of the sizes of l's numbers, on top of acc.
pub fn sizes(l: &[f64], acc: f64) -> f64
    ensures { result ≡ size_sum_of l.now acc }
{
    let mut sum = acc;
    for v in l {
        sum = sum + float::abs(*v);
    }
    sum
}

// A pivot of this size or less is none.
fn least<const N: usize>(m: &[[f64; N]; N], tol: f64) -> f64
    ensures { result ≡ least_pivot_of N m.now tol }
{
    let mut scale = 0.0;
    for row in m {
        scale = sizes(row, scale);
    }
    tol * float::max(scale, f64::MIN_POSITIVE)
}

// The row, i or j, whose entry is larger in size, j where neither is. (By hand: max_by takes the last of equals and an order of all doubles; here the first
// of equals stands, and a NaN never replaces it.)
fn larger(i: usize, a: f64, j: usize, b: f64) -> usize
    ensures { result ≡ larger_of i a j b }
{
    if float::abs(a) > float::abs(b) { i } else { j }
}

// The row of the pivot in column col. (By number: what is looked for is a row's number, and the entry of the best so far is read anew at each turn.)
fn pivot<const N: usize>(m: &[[f64; N]; N], col: usize) -> usize
    requires { col < N }
    ensures value { result ≡ pivot_of N m.now col }
    ensures within { result < N }
{
    let mut pivot = col;
    for row in col + 1..N {
        pivot = larger(row, m[row][col], pivot, m[pivot][col]);
    }
    pivot
}

// The row less factor times the pivot row, from place col on. (By index: of what row[col..].iter_mut().zip(..) lends a proof knows no entry.)
fn lose<const N: usize>(row: &mut [f64; N], factor: f64, p: &[f64; N], col: usize)
    ensures { row.new ≡ lose_of factor p.now col row.old }
{
    for k in col..N {
        row[k] -= factor * p[k];
    }
}

// acc less the products of the row's entries, from a place on, with the unknowns found.
fn rest<const N: usize>(row: &[f64; N], x: &[f64; N], from: usize, acc: f64) -> f64
    ensures { result ≡ remainder_of row.now x.now from acc }
{
    row.iter()
        .zip(x)
        .skip(from)
        .fold(acc, |a, (r, y)| a - r * y)
}

// (By number, here and below: a row's number is that of its column too.)
fn substitute<const N: usize>(m: &[[f64; N]; N], b: &[f64; N]) -> [f64; N]
    ensures { result ≡ substitute_of N (lines m.now b.now) }
{
    let mut x = [0.0; N];
    for row in (0..N).rev() {
        x[row] = rest(&m[row], &x, row + 1, b[row]) / m[row][row];
    }
    x
}

pub fn solve_square<const N: usize>(m: [[f64; N]; N], b: [f64; N], tol: f64) -> Option<[f64; N]>
    ensures { result ≡ solve_square_of N m.entry b.entry tol }
{
    let least = least(&m, tol);
    let mut a = m;
    let mut s = b;
    for col in 0..N {
        let pivot = pivot(&a, col);
        a.swap(col, pivot);
        s.swap(col, pivot);
        let up = a[col];
        if float::abs(up[col]) <= least {
            return None;
        }
        for row in col + 1..N {
            let factor = a[row][col] / up[col];
            lose(&mut a[row], factor, &up, col);
            s[row] -= factor * s[col];
        }
    }
    Some(substitute(&a, &s))
}
