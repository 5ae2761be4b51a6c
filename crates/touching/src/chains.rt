// The chains of real_roots_touching: items linked by a touching critical point between them, and the list of their contacts.
ghost use Rattle.std.specs.Prelude.{◌≡◌, ◌+◌, ◌≤◌, ◌&&◌, [], Some, Ok, IfOk};
ghost use Rattle.std.specs.Float.Ieee.{lt};
ghost use Rattle.roots.specs.Roots.{list_of};
ghost use Rattle.roots.specs.Listed.{multiplicities, Fits};
ghost use Rattle.asking.specs.Asking.{ended, walked, each};
ghost use Rattle.touching.specs.Touching.{no_chain, double_of, opened_by, extended_by, contact_of, emitted, parted, link_at, item_turn};
ghost use Rattle.touching.specs.Touching.{chained};
ghost use Rattle.touching.specs.Walk.{left_of, walk_at, links_at, chain_of, Tidy, at_hand, counts, ItemAdds, ItemRoom};

use crate::items::touches_at;
use crate::{Chain, Links, Question, Walk, Walker};

fn double(m: u32) -> u32
    ensures { (result ≡ double_of m) × (result ≤ 1) }
{
    u32::from(m >= 2)
}

// (Without the ends, which critical::is_between takes too.)
fn between(lo: f64, y: f64, hi: f64) -> bool
    ensures { result ≡ (lt lo y && lt y hi) }
{
    lo < y && y < hi
}

impl Chain {
    fn opened(it: roots::RealRoot) -> Chain
        ensures { result ≡ opened_by it }
    {
        Chain {
            first: it.value,
            last: it.value,
            at: it.value,
            touching: double(it.multiplicity),
            mult: it.multiplicity,
            kind: it.kind,
        }
    }

    // The chain with one more item, linked at y by a yes.
    fn extended(self, it: roots::RealRoot, y: f64) -> Chain
        requires { (self.mult + it.multiplicity ≤ 4) × (self.touching ≤ 8) }
        ensures { result ≡ extended_by self it y }
    {
        Chain {
            first: self.first,
            last: it.value,
            at: y,
            touching: self.touching + (1 + double(it.multiplicity)),
            mult: self.mult + it.multiplicity,
            kind: roots::RootKind::Brush,
        }
    }

    // Of one touching point that point, of several the midpoint.
    #[tactic(auto, unfolding(crate::specs::Touching::contact_of))]
    fn contact(self) -> f64
        ensures { result ≡ contact_of self }
    {
        match self.touching {
            0 => self.first,
            1 => self.at,
            _ => 0.5 * (self.first + self.last),
        }
    }
}

// A chain's root goes into the list, if finite. (A chain of no root, which no walk makes, is none.)
#[tactic(auto, using(crate::proofs::Steps::emits))]
pub fn emit(e: i32, out: roots::Roots, chain: Option<Chain>) -> roots::Roots
    requires { Tidy out × (out.len + counts chain ≤ 4) }
    ensures { (list_of result ≡ emitted e (list_of out) (chain_of chain)) × Tidy result × (result.len ≤ out.len + counts chain) }
{
    let Some(c) = chain else {
        return out;
    };
    let x = ldexp::ldexp(c.contact(), e);
    if c.mult == 0 || !float::is_finite(x) {
        return out;
    }
    out.append(roots::RealRoot {
        value: x,
        multiplicity: c.mult,
        kind: c.kind,
    })
}

impl Walker {
    // The chain ends, and the item begins one.
    #[tactic(auto, using(crate::proofs::Steps::parts))]
    fn part(&self, it: roots::RealRoot, w: Links, used: usize) -> Links
        requires { ItemRoom w it × (1 ≤ it.multiplicity) }
        ensures { (links_at self.now.replies (Ok result)
            ≡ ended (parted self.now.poly.e (list_of w.out) (chain_of w.chain) it) (left_of self.now.replies used)) × ItemAdds w result it }
    {
        let out = emit(self.poly.e, w.out, w.chain);
        let chain = Some(Chain::opened(it));
        Links { chain, out, used }
    }

    // The item after the chain c at hand, where the critical point between them is y.
    #[tactic(auto, using(crate::proofs::Steps::links))]
    fn link_at(&self, it: roots::RealRoot, w: Links, c: Chain, y: f64) -> Result<Links, Question>
        requires { ItemRoom w it × (1 ≤ it.multiplicity) × (w.chain ≡ Some c) }
        ensures { (links_at self.now.replies result
            ≡ walked (left_of self.now.replies w.used) (link_at self.now.poly.e (list_of w.out) c it (Some y)))
            × IfOk result (λ r. ItemAdds w r it) }
    {
        if !between(c.last, y, it.value) {
            return Ok(self.part(it, w, w.used));
        }
        let h = touches_at(self.poly.e, self.replies, w.used, y)?;
        if h.yes {
            let chain = Some(c.extended(it, y));
            return Ok(Links {
                chain,
                used: h.used,
                ..w
            });
        }
        Ok(self.part(it, w, h.used))
    }

    // One item after the chain so far.
    #[tactic(auto, using(crate::proofs::Steps::turns))]
    fn item_turn(&self, it: roots::RealRoot, w: Links) -> Result<Links, Question>
        requires { ItemRoom w it }
        ensures { (links_at self.now.replies result
            ≡ walked (left_of self.now.replies w.used) (item_turn self.now.poly self.now.tol (chain_of w.chain, list_of w.out) it))
            × IfOk result (λ r. ItemAdds w r it) }
    {
        // A separator.
        if it.multiplicity == 0 {
            let out = emit(self.poly.e, w.out, w.chain);
            return Ok(Links {
                chain: None,
                out,
                ..w
            });
        }
        let Some(c) = w.chain else {
            return Ok(self.part(it, w, w.used));
        };
        let found = critical::extremum(
            self.poly,
            0.5 * (c.last + it.value),
            c.last,
            it.value,
            self.tol,
        );
        match found {
            Some(y) => self.link_at(it, w, c, y),
            None => Ok(self.part(it, w, w.used)),
        }
    }

    // The loop over the items, from the replies used so far.
    pub fn chains(&self, its: roots::Roots, used: usize) -> Result<Links, Question>
        requires { Fits its × (multiplicities (list_of its) ≤ 4) }
        ensures { (links_at self.now.replies result
            ≡ walked (left_of self.now.replies used) (each (item_turn self.now.poly self.now.tol) (no_chain, []) (list_of its)))
            × IfOk result (λ r. Tidy r.out × (r.out.len + at_hand r.chain ≤ 4)) }
    {
        let mut w = Links {
            chain: None,
            out: roots::Roots::default(),
            used,
        };
        for it in &its.root[..its.len] {
            w = self.item_turn(*it, w)?;
        }
        Ok(w)
    }

    // The same, and the last chain ends with the last item.
    pub fn chained(&self, its: roots::Roots, used: usize) -> Result<Walk, Question>
        requires { Fits its × (multiplicities (list_of its) ≤ 4) }
        ensures { (walk_at self.now.replies result ≡ walked (left_of self.now.replies used) (chained self.now.poly self.now.tol (list_of its)))
            × IfOk result (λ r. Tidy r.items) }
    {
        let w = self.chains(its, used)?;
        let items = emit(self.poly.e, w.out, w.chain);
        Ok(Walk {
            items,
            used: w.used,
        })
    }
}
