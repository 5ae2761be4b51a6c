// `push_quadratic` of poly.rs: what a quadratic factor is, and where it goes.
// It rests on `isolated`, `scaled`, `roots`, `band` and `critical`; the lists rest on it.
#![tactic(auto, using(crate::proofs::Laws::laws), unfolding(crate::proofs::Laws::definitions))]

ghost use Rattle.std.specs.Prelude.{◌≡◌, ◌≤◌};
ghost use Rattle.push.specs.Quadratic.{push_quadratic_in, push_rooted_in};

// The candidates and the complex pairs, which the Rust's push_quadratic changes.
#[derive(Clone, Copy)]
pub struct Found {
    pub roots: roots::Roots,
    pub pairs: roots::Pairs,
}

// Of y^2 + al*y + be: a double root within the band, two simple roots, or a complex pair. (al and be by themselves, here and below, as in poly.rs and as C
// hands them in: pongewaru_push_quadratic.)
pub fn push_quadratic(poly: scaled::Scaled, al: f64, be: f64, tol: f64, found: Found) -> Found
    requires { poly.d ≤ 4 }
    ensures { result ≡ push_quadratic_in poly al be tol found.roots found.pairs }
{
    push_rooted(poly, al, be, isolated::disc_of(al, be), tol, found)
}

// The same, with its discriminant at hand.
pub fn push_rooted(
    poly: scaled::Scaled,
    al: f64,
    be: f64,
    s: isolated::Disc,
    tol: f64,
    found: Found,
) -> Found
    requires { poly.d ≤ 4 }
    ensures { result ≡ push_rooted_in poly al be s tol found.roots found.pairs }
{
    let mid = -0.5 * al;
    let half = 0.5 * s.root;
    let p = poly.polynomial();
    let out = found.roots;
    let pairs = found.pairs;
    if band::within(p, poly.unit, half, mid, tol) {
        let y = critical::double_at(p, poly.unit, mid, tol);
        let roots = out.keep(y, 2);
        return Found { roots, pairs };
    }
    if s.disc > 0.0 {
        let q = isolated::far_by(al, s.root);
        let roots = out.keep(q, 1).keep(be / q, 1);
        return Found { roots, pairs };
    }
    let pairs = pairs.push(mid, half);
    Found { roots: out, pairs }
}
