// Factors of poly.rs: linear and quadratic ones, by value, with their counts.
// It rests on `float`; the large factors, their product and factorize rest on it.
#![tactic(auto)]

ghost use Rattle.std.specs.Prelude.{◌≡◌};
ghost use Rattle.factors.specs.Factors.{no_factors, push_lin_of, push_quad_of, degree_of, Sized};

// y^2 + al*y + be
#[derive(Clone, Copy)]
pub struct Quad {
    pub al: f64,
    pub be: f64,
}

// The first nlin of `lin` are factors y - r, and the first nquad of `quad` quadratic ones, as in the Rust: fixed memory. One buffer type for both would need a
// filler of each type, and each definition that reads lin[i] would read through it: no plainer. The counts have no bound here, since push_lin and push_quad
// take any.
#[derive(Clone, Copy)]
pub struct Factors {
    pub lin: [f64; 4],
    pub nlin: usize,
    pub quad: [Quad; 2],
    pub nquad: usize,
}

impl Default for Factors {
    ghost is_default = { λ f. f ≡ no_factors };

    fn default() -> Factors {
        Factors {
            lin: [0.0; 4],
            nlin: 0,
            quad: [Quad { al: 0.0, be: 0.0 }; 2],
            nquad: 0,
        }
    }
}

impl Factors {
    #[tactic(auto, unfolding(crate::specs::Factors::push_lin_of))]
    pub fn push_lin(mut self, r: f64) -> Factors
        ensures { result ≡ push_lin_of self r }
    {
        if self.nlin < 4 {
            self.lin[self.nlin] = r;
            self.nlin += 1;
        }
        self
    }

    // (al and be by themselves, as in poly.rs: no caller has a Quad to hand on.)
    #[tactic(auto, unfolding(crate::specs::Factors::push_quad_of))]
    pub fn push_quad(mut self, al: f64, be: f64) -> Factors
        ensures { result ≡ push_quad_of self al be }
    {
        if self.nquad < 2 {
            self.quad[self.nquad] = Quad { al, be };
            self.nquad += 1;
        }
        self
    }

    pub fn degree(self) -> usize
        requires { Sized self }
        ensures { result ≡ degree_of self }
    {
        self.nlin + 2 * self.nquad
    }
}
