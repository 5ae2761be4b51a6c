// QuadraticSolution of equation.rs on all bits: the answer to a quadratic, moved, and made to touch.
// It rests on `float`; `equation` gives such answers, and the hall file and the C functions tell them.
#![tactic(auto)]

ghost use Rattle.std.specs.Prelude.{◌≡◌};
ghost use Rattle.float.specs.Methods.{all_finite_of};
ghost use Rattle.solution.specs.Solution.{values_of, Mapped, shifted_of, touching_at_of};

#[derive(Clone, Copy, PartialEq, Debug)]
pub enum QuadraticSolution {
    // Two distinct roots, ordered.
    Two(f64, f64),
    // A double root.
    One(f64),
    // The root of a linear equation.
    Linear(f64),
    // Neither a nor b counts; c is not looked at.
    Degenerate,
    Empty,
}

impl QuadraticSolution {
    // Whether all its places are finite.
    #[tactic(auto, unfolding(crate::specs::Solution::values_of))]
    pub fn is_finite(self) -> bool
        ensures { result ≡ all_finite_of (values_of self) }
    {
        match self {
            QuadraticSolution::Two(x, y) => float::is_finite(x) && float::is_finite(y),
            QuadraticSolution::One(x) | QuadraticSolution::Linear(x) => float::is_finite(x),
            QuadraticSolution::Degenerate | QuadraticSolution::Empty => true,
        }
    }

    // Each place taken to another.
    #[tactic(auto, unfolding(crate::specs::Solution::Mapped))]
    fn map<F: Fn(f64) -> f64>(self, f: F) -> QuadraticSolution
        requires { F.IsAlwaysCallable f }
        ensures { Mapped (F.post f) self result }
    {
        match self {
            QuadraticSolution::Two(x, y) => QuadraticSolution::Two(f(x), f(y)),
            QuadraticSolution::One(x) => QuadraticSolution::One(f(x)),
            QuadraticSolution::Linear(x) => QuadraticSolution::Linear(f(x)),
            QuadraticSolution::Degenerate | QuadraticSolution::Empty => self,
        }
    }

    // Undoes a substitution t = t0 + s.
    #[tactic(auto, using(crate::proofs::Moved::shifted))]
    pub fn shifted(self, t0: f64) -> QuadraticSolution
        ensures { result ≡ shifted_of self t0 }
    {
        self.map(|t| t0 + t)
    }

    // Where the curve touches at the vertex, two close roots or a near-real pair are one double root there.
    #[tactic(auto, unfolding(crate::specs::Solution::touching_at_of))]
    pub fn touching_at(self, vertex: f64, touches: bool) -> QuadraticSolution
        ensures { result ≡ touching_at_of self vertex touches }
    {
        match self {
            QuadraticSolution::Two(..) | QuadraticSolution::Empty
                if float::is_finite(vertex) && touches => { QuadraticSolution::One(vertex) }
            other => other,
        }
    }
}
