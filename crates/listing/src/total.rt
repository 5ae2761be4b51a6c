// What the last line of a listing counts.
ghost use Rattle.std.specs.Prelude.{◌≡◌};
ghost use Rattle.listing.specs.Printable.{Printable};
ghost use Rattle.listing.specs.Totals.{line_total, plus, FitsWords};

use roots::Roots;
use std::ops::AddAssign;

// How many lines records have, how many roots these list, and the sum of the roots' multiplicities.
#[derive(Clone, Copy, Default)]
pub struct Total {
    pub records: u64,
    pub roots: u64,
    pub multiplicities: u64,
}

impl Total {
    // That of a line which lists no root.
    pub const LINE: Total = Total {
        records: 1,
        roots: 0,
        multiplicities: 0,
    };

    // That of a line which lists these roots.
    #[tactic(auto, using(crate::proofs::Totals::multiplicities_next, crate::proofs::Totals::multiplicities_part, crate::proofs::Totals::multiplicities_all))]
    pub fn line(roots: &Roots) -> Total
        requires { Printable roots.now }
        ensures { result ≡ line_total roots.now }
    {
        let mut multiplicities = 0;
        for root in &roots.root[..roots.len] {
            multiplicities += root.multiplicity as u64;
        }
        Total {
            records: 1,
            roots: roots.len as u64,
            multiplicities,
        }
    }
}

impl AddAssign for Total {
    ghost can_add_assign = { λ a b. FitsWords (plus a b) };

    ghost add_assign_gives = { λ a b r. r ≡ plus a b };

    fn add_assign(&mut self, other: Total) {
        self.records += other.records;
        self.roots += other.roots;
        self.multiplicities += other.multiplicities;
    }
}
