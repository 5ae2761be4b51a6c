// The roots of poly.rs on their way to the list: RealRoot, at most four of them (Candidates in the scaled variable, the answer in x), and at most two
// complex pairs. A root's kind says whether it crossed or brushed.
// It rests on `float`; push_quadratic, finish, the lists and the inquiry rest on it.
#![tactic(auto)]

ghost use Rattle.std.specs.Prelude.{◌≡◌};
ghost use Rattle.roots.specs.Roots.{kind_number, kind_of, root_by, root, no_roots, pushed_of, kept_in, pair, no_pairs, paired_in};

// Whether a root crossed, brushed, or is flat; and its number for C.
#[derive(Clone, Copy)]
pub enum RootKind {
    // Its multiplicity is 1.
    Crossing = 0,
    // Another one that a yes reply helped to form.
    Brush = 1,
    // Any other.
    Flat = 2,
}

// A place, its multiplicity and its kind.
#[derive(Clone, Copy)]
pub struct RealRoot {
    pub value: f64,
    pub multiplicity: u32,
    pub kind: RootKind,
}

// Candidates of poly.rs, and its list of at most four roots, in the order found. (An array with a count, as document 01 names it; an ArrayVec is
// not Copy, and an inquiry takes any len, which a bound here would refuse.)
#[derive(Clone, Copy)]
pub struct Roots {
    pub root: [RealRoot; 4],
    pub len: usize,
}

// A complex pair centre ± i * half.
#[derive(Clone, Copy)]
pub struct Pair {
    pub centre: f64,
    pub half: f64,
}

// As Roots.
#[derive(Clone, Copy)]
pub struct Pairs {
    pub pair: [Pair; 2],
    pub len: usize,
}

impl RootKind {
    // The kind of a root of this multiplicity; brushed: at least one yes reply helped to form it.
    #[tactic(auto, unfolding(crate::specs::Roots::kind_of))]
    fn of(multiplicity: u32, brushed: bool) -> RootKind
        ensures { result ≡ kind_of multiplicity brushed }
    {
        if multiplicity == 1 {
            return RootKind::Crossing;
        }
        if brushed {
            return RootKind::Brush;
        }
        RootKind::Flat
    }
}

// The kind for C.
#[tactic(auto, unfolding(crate::specs::Roots::kind_number))]
impl From<RootKind> for u32 {
    ghost from_gives = { λ k n. n ≡ kind_number k };

    fn from(kind: RootKind) -> u32 {
        kind as u32
    }
}

impl RealRoot {
    // A root that replies may have helped to form.
    pub fn by(brushed: bool, value: f64, multiplicity: u32) -> RealRoot
        ensures { result ≡ root_by brushed value multiplicity }
    {
        RealRoot {
            value,
            multiplicity,
            kind: RootKind::of(multiplicity, brushed),
        }
    }

    // A root that no reply helped to form.
    pub fn new(value: f64, multiplicity: u32) -> RealRoot
        ensures { result ≡ root value multiplicity }
    {
        RealRoot::by(false, value, multiplicity)
    }
}

impl Default for Roots {
    ghost is_default = { λ s. s ≡ no_roots };

    fn default() -> Roots {
        Roots {
            root: [RealRoot {
                value: 0.0,
                multiplicity: 0,
                kind: RootKind::Crossing,
            }; 4],
            len: 0,
        }
    }
}

impl Roots {
    // (Two of one contract, push and append, and not one: the wrong programs that are kept alter the places of each. Here each place has its number, and the
    // compiler keeps the roots in registers, where a place that is counted would put them into memory.)
    #[tactic(auto, using(crate::proofs::Laws::pushes))]
    pub fn push(self, r: RealRoot) -> Roots
        ensures { result ≡ pushed_of self r }
    {
        let [a, b, c, d] = self.root;
        match self.len {
            0 => Roots {
                root: [r, b, c, d],
                len: 1,
            },
            1 => Roots {
                root: [a, r, c, d],
                len: 2,
            },
            2 => Roots {
                root: [a, b, r, d],
                len: 3,
            },
            3 => Roots {
                root: [a, b, c, r],
                len: 4,
            },
            _ => self,
        }
    }

    // For roots that lie in memory: one place is stored, where push would write all four.
    #[tactic(auto, unfolding(crate::specs::Roots::pushed_of))]
    pub fn append(mut self, r: RealRoot) -> Roots
        ensures { result ≡ pushed_of self r }
    {
        if self.len < 4 {
            self.root[self.len] = r;
            self.len += 1;
        }
        self
    }

    // Only a finite place is kept.
    #[tactic(auto, unfolding(crate::specs::Roots::kept_in))]
    pub fn keep_root(self, r: RealRoot) -> Roots
        ensures { result ≡ kept_in self r }
    {
        if float::is_finite(r.value) {
            return self.push(r);
        }
        self
    }

    // Candidates::push.
    pub fn keep(self, value: f64, multiplicity: u32) -> Roots
        ensures { result ≡ kept_in self (root value multiplicity) }
    {
        self.keep_root(RealRoot::new(value, multiplicity))
    }
}

impl Default for Pairs {
    ghost is_default = { λ s. s ≡ no_pairs };

    fn default() -> Pairs {
        Pairs {
            pair: [Pair {
                centre: 0.0,
                half: 0.0,
            }; 2],
            len: 0,
        }
    }
}

impl Pairs {
    // One more, where its centre is finite and there is room; each place by its number, as in push of Roots.
    #[tactic(auto, using(crate::proofs::Laws::pairings))]
    pub fn push(self, centre: f64, half: f64) -> Pairs
        ensures { result ≡ paired_in self (pair centre half) }
    {
        if float::is_finite(centre) {
            let p = Pair { centre, half };
            let [first, second] = self.pair;
            return match self.len {
                0 => Pairs {
                    pair: [p, second],
                    len: 1,
                },
                1 => Pairs {
                    pair: [first, p],
                    len: 2,
                },
                _ => self,
            };
        }
        self
    }
}
