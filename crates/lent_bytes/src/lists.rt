// A list of roots as the doubles that C functions hand out.
ghost use Rattle.std.specs.Prelude.{◌≡◌};
ghost use Rattle.roots.specs.Listed.{Fits};
ghost use Rattle.lent_bytes.specs.Lists.{root_numbers};

use roots::Roots;

// How many roots there are, and the four places with their multiplicities and kinds.
#[tactic(auto, using(crate::proofs::Rows::filled_next, crate::proofs::Rows::filled_all))]
pub fn root_numbers(s: Roots) -> [f64; 13]
    requires { Fits s }
    ensures { result ≡ root_numbers s }
{
    let mut x = [0.0; 13];
    x[0] = s.len as f64;
    for (k, r) in s.root.iter().enumerate() {
        x[3 * k + 1] = r.value;
        x[3 * k + 2] = r.multiplicity as f64;
        x[3 * k + 3] = u32::from(r.kind) as f64;
    }
    x
}
