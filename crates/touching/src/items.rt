// The items of real_roots_touching: the roots, and each complex pair as a double root or as a separator; and touches_at.
ghost use Rattle.std.specs.Prelude.{◌≡◌, ◌≤◌, ◌<◌, take, Some, IfOk};
ghost use Rattle.roots.specs.Roots.{list_of, pair_list_of};
ghost use Rattle.roots.specs.Listed.{multiplicities, Fits, PairsFit};
ghost use Rattle.asking.specs.Asking.{walked, each};
ghost use Rattle.touching.specs.Touching.{touches_at, pair_order, reach_of, all_apart, pair_item, pair_at, pair_turn};
ghost use Rattle.touching.specs.Replies.{replies_of};
ghost use Rattle.touching.specs.Walk.{left_of, heard_at, walk_at, RepliesFit, PairAdds, Held};

use crate::{Heard, Question, Replies, Walk, Walker};

// The reply about the place of y, after `used` of them. A place that is not finite is not asked about, and does not touch.
#[tactic(auto, using(crate::proofs::Steps::touches))]
pub fn touches_at(e: i32, replies: Replies, used: usize, y: f64) -> Result<Heard, Question>
    requires { RepliesFit replies }
    ensures { heard_at replies result ≡ walked (left_of replies used) (touches_at e y) }
{
    let x = ldexp::ldexp(y, e);
    if !float::is_finite(x) {
        return Ok(Heard { yes: false, used });
    }
    if used < replies.count {
        let yes = replies.reply[used];
        return Ok(Heard {
            yes,
            used: used + 1,
        });
    }
    Err(Question { place: x })
}

// Half the distance from m to the nearest item, or far where that is less.
#[tactic(auto, using(crate::proofs::Steps::reach_fold))]
fn reach(items: roots::Roots, m: f64, far: f64) -> f64
    requires { Fits items }
    ensures { result ≡ reach_of m far (list_of items) }
{
    items.root[..items.len]
        .iter()
        .fold(far, |r, it| float::min(r, 0.5 * float::abs(it.value - m)))
}

// Every item is farther than b from y.
#[tactic(auto, using(crate::proofs::Steps::apart_all))]
fn all_apart(items: roots::Roots, b: f64, y: f64) -> bool
    requires { Fits items }
    ensures { result ≡ all_apart b y (list_of items) }
{
    items.root[..items.len]
        .iter()
        .all(|it| float::abs(it.value - y) > b)
}

// A touching pair is a double root, another one a separator: of multiplicity 0, as in the Rust's items, whose type the list and the definition share.
fn pair_item(y: f64, yes: bool) -> roots::RealRoot
    ensures { result ≡ pair_item y yes }
{
    roots::RealRoot::by(yes, y, if yes { 2 } else { 0 })
}

#[tactic(auto, using(crate::proofs::Steps::orders))]
fn narrower_first(ps: roots::Pairs) -> [roots::Pair; 2]
    requires { PairsFit ps }
    ensures { take ps.len result ≡ pair_order (pair_list_of ps) }
{
    let [p, q] = ps.pair;
    if ps.len == 2 && q.half < p.half {
        [q, p]
    } else {
        [p, q]
    }
}

impl Walker {
    #[tactic(auto, using(crate::proofs::Steps::pairs_at))]
    fn pair_at(&self, w: Walk, y: f64) -> Result<Walk, Question>
        requires { Fits w.items × (w.items.len < 4) }
        ensures { (walk_at self.now.replies result ≡ walked (left_of self.now.replies w.used) (pair_at self.now.poly self.now.tol (list_of w.items) (Some y)))
            × IfOk result (λ r. PairAdds w.items r.items) }
    {
        let items = w.items;
        let b = self.tol * (self.poly.unit + float::abs(y));
        if !all_apart(items, b, y) {
            return Ok(w);
        }
        let h = touches_at(self.poly.e, self.replies, w.used, y)?;
        let more = items.append(pair_item(y, h.yes));
        Ok(Walk {
            items: more,
            used: h.used,
        })
    }

    #[tactic(auto, using(crate::proofs::Steps::pair_turns))]
    fn pair_turn(&self, p: roots::Pair, w: Walk) -> Result<Walk, Question>
        requires { Fits w.items × (w.items.len < 4) }
        ensures { (walk_at self.now.replies result ≡ walked (left_of self.now.replies w.used) (pair_turn self.now.poly self.now.tol (list_of w.items) p))
            × IfOk result (λ r. PairAdds w.items r.items) }
    {
        let m = p.centre;
        let r = reach(w.items, m, p.half);
        let Some(y) = critical::extremum(self.poly, m, m - r, m + r, self.tol) else {
            return Ok(w);
        };
        self.pair_at(w, y)
    }

    // The loop over the pairs, the narrower one first.
    pub fn pairs(&self, items: roots::Roots, ps: roots::Pairs) -> Result<Walk, Question>
        requires { Held items ps }
        ensures { (walk_at self.now.replies result
            ≡ walked (replies_of self.now.replies) (each (pair_turn self.now.poly self.now.tol) (list_of items) (pair_order (pair_list_of ps))))
            × IfOk result (λ r. Fits r.items × (multiplicities (list_of r.items) ≤ 4)) }
    {
        let order = narrower_first(ps);
        let mut w = Walk { items, used: 0 };
        for p in &order[..ps.len] {
            w = self.pair_turn(*p, w)?;
        }
        Ok(w)
    }
}
