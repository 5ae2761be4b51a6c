// real_roots_touching from the finished roots and the pairs on: the items, in increasing order where there is a pair, and then their chains.
ghost use Rattle.std.specs.Prelude.{◌≡◌, IfOk};
ghost use Rattle.roots.specs.Roots.{list_of, pair_list_of};
ghost use Rattle.asking.specs.Asking.{walked};
ghost use Rattle.touching.specs.Touching.{touching};
ghost use Rattle.touching.specs.Replies.{replies_of};
ghost use Rattle.touching.specs.Walk.{walk_at, Tidy, Held};

use crate::{Question, Walk, Walker};

impl Walker {
    // The list, or the place of the first question that has no reply yet.
    #[tactic(auto, using(crate::proofs::Steps::touchings))]
    pub fn touching(&self, roots: roots::Roots, ps: roots::Pairs) -> Result<Walk, Question>
        requires { Held roots ps }
        ensures { (walk_at self.now.replies result
            ≡ walked (replies_of self.now.replies) (touching self.now.poly self.now.tol (list_of roots) (pair_list_of ps)))
            × IfOk result (λ r. Tidy r.items) }
    {
        let w = self.pairs(roots, ps)?;
        if ps.len == 0 {
            return self.chained(w.items, w.used);
        }
        self.chained(finish::ordered(w.items), w.used)
    }
}
