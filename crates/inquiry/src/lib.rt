// real_roots_touching of poly.rs as an inquiry: a value that shows a question about a place, or the finished list.
// Nothing is suspended in it: `ask` walks anew, with the replies at hand. It rests on `poly` (solve), `touching` (the walk), `finish` and `asking`, which says
// what a computation that asks is; the crank, the pin contact and the programs rest on it.
#![tactic(auto)]

ghost use Rattle.std.specs.Prelude.{◌≡◌, ◌≤◌, true};
ghost use Rattle.roots.specs.Roots.{list_of, pair_list_of};
ghost use Rattle.roots.specs.Listed.{Fits, Within};
ghost use Rattle.asking.specs.Asking.{asks, walked};
ghost use Rattle.touching.specs.Touching.{touching};
ghost use Rattle.touching.specs.Replies.{replies_of};
ghost use Rattle.touching.specs.Walk.{left_of, RepliesFit, Held};
ghost use Rattle.poly.specs.RealRoots.{real_roots_systems_of};
ghost use Rattle.tally.specs.Tally.{answer_in, systems_in};
ghost use Rattle.inquiry.specs.Inquiry.{counted_in, sizes_fit, sound_of, list_in, over_by, seen_at, unseen, asked_of, seen_of, replied_of};
ghost use Rattle.inquiry.specs.Start.{fresh_by, start_of, given, shown_after_of};

use angle::Sine;
use refusals::Refusal;
use tally::Tallied;
use touching::{Replies, Walker};

// What `solve` and `finish` gave, in the scaled variable, the tolerance, how many systems were solved, and the replies.
// (With a `Solved` for the first five, each definition and theorem of an inquiry would read them through one name more.)
#[derive(Clone, Copy)]
pub struct Inquiry {
    pub poly: scaled::Scaled,
    pub tol: f64,
    pub roots: roots::Roots,
    pub pairs: roots::Pairs,
    pub systems: u32,
    pub replies: Replies,
}

// A question about a place, or the finished list.
#[derive(Clone, Copy)]
pub enum Asked {
    Question(f64),
    Finished(roots::Roots),
}

// What is shown, and why the last reply is refused, had they come one by one: it was not needed.
#[derive(Clone, Copy)]
pub struct Seen {
    pub asked: Asked,
    pub refused: Option<Refusal>,
}

fn nothing() -> Seen
    ensures { result ≡ unseen }
{
    Seen {
        asked: Asked::Finished(roots::Roots::default()),
        refused: None,
    }
}

#[tactic(auto, unfolding(crate::specs::Inquiry::shown, crate::specs::Inquiry::over_by, asking::specs::Asking::left_by))]
fn question(place: f64) -> Seen
    ensures { result ≡ seen_at (asks place) }
{
    Seen {
        asked: Asked::Question(place),
        refused: None,
    }
}

// Why the last reply is refused, where a walk ends after `used` of them.
#[tactic(auto, using(touching::proofs::Lists::reply_cons, touching::proofs::Lists::reply_nil), unfolding(crate::specs::Inquiry::over_by))]
fn over(replies: Replies, used: usize) -> Option<Refusal>
    requires { RepliesFit replies }
    ensures { result ≡ over_by (left_of replies used) }
{
    (used < replies.count).then_some(Refusal::NothingAsked)
}

// Each root counts at least once, and together they count at most `most` times.
#[tactic(auto, using(crate::proofs::Sound::counts))]
fn counted_in(most: usize, roots: roots::Roots) -> bool
    requires { Fits roots }
    ensures { result ≡ counted_in most (list_of roots) }
{
    let mut left = most;
    for r in &roots.root[..roots.len] {
        let m = r.multiplicity as usize;
        if m == 0 || left < m {
            return false;
        }
        left -= m;
    }
    true
}

fn sizes_fit(d: usize, replies: usize, roots: usize, pairs: usize) -> bool
    ensures { (result ≡ sizes_fit d replies roots pairs) × (result ≡ true → (roots ≤ 4) × (pairs ≤ 2)) }
{
    d <= 4 && replies <= 4 && roots <= 4 && pairs <= 2
}

// The question, or the finished list, and whether every reply was needed.
#[tactic(auto, using(crate::proofs::Ends::walk_ends))]
fn walk_all(walker: &Walker, roots: roots::Roots, pairs: roots::Pairs) -> Seen
    requires { Held roots pairs }
    ensures { result ≡ seen_at (walked (replies_of walker.now.replies)
        (touching walker.now.poly walker.now.tol (list_of roots) (pair_list_of pairs))) }
{
    match walker.touching(roots, pairs) {
        Err(q) => question(q.place),
        Ok(w) => Seen {
            asked: Asked::Finished(w.items),
            refused: over(walker.replies, w.used),
        },
    }
}

// What was solved, with these replies.
fn begun(s: poly::Solved, replies: Replies) -> Inquiry
    ensures { result ≡ given (fresh_by s) replies }
{
    Inquiry {
        poly: s.poly,
        tol: s.tol,
        roots: s.roots,
        pairs: s.pairs,
        systems: s.systems,
        replies,
    }
}

// 1, 2 and 3 are refused as for a list.
// `sine` is the mode: the third angle's sine is that of the rounded cosine, as in the reference build, or of the exact one.
#[tactic(auto, unfolding(crate::specs::Start::start_of))]
pub fn start(sine: Sine, coeffs: &[f64], tol: f64) -> Result<Inquiry, Refusal>
    ensures { result ≡ start_of sine coeffs.now tol }
{
    let s = poly::solve(sine, coeffs, tol)?;
    Ok(begun(s, Replies::default()))
}

// What is shown of what was solved, with these replies: for those who reply by a function of the place.
pub fn asked_with(s: poly::Solved, replies: Replies) -> Asked
    ensures { result ≡ asked_of (given (fresh_by s) replies) }
{
    begun(s, replies).ask().value
}

// What `start` and `see` show with these replies put in at once. The inquiry is not handed out, so a level list is solved without logarithms.
pub fn shown_after(
    sine: Sine,
    coeffs: &[f64],
    tol: f64,
    replies: Replies,
) -> Result<Tallied<Seen>, Refusal>
    ensures value { answer_in result ≡ shown_after_of sine coeffs.now tol replies }
    ensures systems { systems_in result ≡ real_roots_systems_of sine coeffs.now tol }
{
    let s = poly::solve_brief(sine, coeffs, tol)?;
    Ok(begun(s, replies).see())
}

impl Inquiry {
    // Whether `start` and `reply` can have made it, by its sizes.
    #[tactic(auto, using(crate::proofs::Sound::sound_by), unfolding(crate::specs::Inquiry::sound_of))]
    pub fn is_sound(self) -> bool
        ensures { result ≡ sound_of self }
    {
        sizes_fit(
            self.poly.d,
            self.replies.count,
            self.roots.len,
            self.pairs.len,
        ) && counted_in(4 - 2 * self.pairs.len, self.roots)
    }

    // The question, or the finished list; neither for a value that is not sound. The systems are those that it holds.
    // Whatever the inquiry is, a list has at most four finite roots, each counting at least once, together at most four times.
    pub fn ask(self) -> Tallied<Asked>
        ensures value { (result.value ≡ asked_of self) × Within 4 (list_of (list_in result.value)) }
        ensures systems { result.systems ≡ self.systems }
    {
        let seen = self.see();
        seen.with(seen.value.asked)
    }

    // The same, and whether every reply was needed, for replies that were put in at once.
    pub fn see(self) -> Tallied<Seen>
        ensures value { result.value ≡ seen_of self }
        ensures systems { result.systems ≡ self.systems }
    {
        Tallied {
            value: self.seen(),
            systems: self.systems,
        }
    }

    // What is shown.
    fn seen(self) -> Seen
        ensures { result ≡ seen_of self }
    {
        if self.is_sound() {
            let walker = Walker {
                poly: self.poly,
                tol: self.tol,
                replies: self.replies,
            };
            return walk_all(&walker, self.roots, self.pairs);
        }
        nothing()
    }

    // The inquiry after the reply, refused where nothing is being asked.
    #[tactic(auto, using(crate::proofs::Questions::asking_room), unfolding(crate::specs::Inquiry::replied_of))]
    pub fn reply(self, yes: bool) -> Result<Inquiry, Refusal>
        ensures { result ≡ replied_of self yes }
    {
        match self.ask().value {
            Asked::Question(_) => {
                let replies = self.replies.with(yes);
                Ok(Inquiry { replies, ..self })
            }
            Asked::Finished(_) => Err(Refusal::NothingAsked),
        }
    }
}
