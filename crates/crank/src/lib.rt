// solve_trig of equation.rs up to its list, as an inquiry: k in eighths of a turn, and roots u, where t = k*PI/4 + 2*atan(u).
// It rests on `trig_quartic` (k, and the quartic in u) and on `inquiry`, which asks and lists as for any list; the programs rest on it.
#![tactic(auto)]

ghost use Rattle.std.specs.Prelude.{◌≡◌};
ghost use Rattle.roots.specs.Roots.{list_of};
ghost use Rattle.roots.specs.Listed.{Within};
ghost use Rattle.poly.specs.Coefficients.{degree_left};
ghost use Rattle.tally.specs.Tally.{answer_in, systems_in};
ghost use Rattle.crank.specs.Crank.{trig_quartic_of, crank_start_of, crank_asked_of, crank_replied_of, crank_shown_of, crank_of, crank_roots_in};
ghost use Rattle.crank.specs.Crank.{crank_systems_of, crank_k_of, with_k};

use angle::Sine;
use inquiry::Asked;
use refusals::Refusal;
use tally::Tallied;
use trig_quartic::{TrigEquation, crank_front};

// k, and the inquiry about the quartic in u. (One generic struct for this and the three below would call inquiry, question, list and roots `value`.)
#[derive(Clone, Copy)]
pub struct CrankInquiry {
    pub k: u32,
    pub inquiry: inquiry::Inquiry,
}

// For this k, a question about the place u, or the finished list.
#[derive(Clone, Copy)]
pub struct CrankAsked {
    pub k: u32,
    pub asked: inquiry::Asked,
}

// k, and what is shown.
#[derive(Clone, Copy)]
pub struct CrankShown {
    pub k: u32,
    pub seen: inquiry::Seen,
}

// k, and the roots.
#[derive(Clone, Copy)]
pub struct CrankAnswer {
    pub k: u32,
    pub roots: roots::Roots,
}

// Why a start is refused, and the k that was found: 0 where the equation itself is refused.
#[derive(Clone, Copy)]
pub struct CrankRefused {
    pub refusal: Refusal,
    pub k: u32,
}

// An equation that is refused has no k.
impl From<Refusal> for CrankRefused {
    ghost from_gives = { λ refusal r. (r.refusal ≡ refusal) × (r.k ≡ 0) };

    fn from(refusal: Refusal) -> CrankRefused {
        CrankRefused { refusal, k: 0 }
    }
}

impl From<CrankRefused> for Refusal {
    ghost from_gives = { λ r refusal. refusal ≡ r.refusal };

    fn from(refused: CrankRefused) -> Refusal {
        refused.refusal
    }
}

// 1 and 5 are refused by the equation; 2 by the list, as for any list: then k is found, and said beside the refusal.
#[tactic(auto, using(crate::proofs::Refused::starts))]
pub fn start(sine: Sine, confusion: f64, trig: TrigEquation) -> Result<CrankInquiry, CrankRefused>
    ensures { result ≡ with_k (crank_k_of trig) (crank_start_of sine confusion trig) }
{
    let front = crank_front(trig)?;
    match inquiry::start(sine, &front.q, confusion) {
        Ok(inquiry) => Ok(CrankInquiry {
            k: front.k,
            inquiry,
        }),
        Err(refusal) => {
            let k = front.k;
            Err(CrankRefused { refusal, k })
        }
    }
}

impl CrankInquiry {
    // The question, or the finished list.
    #[tactic(auto, unfolding(crate::specs::Crank::crank_asked_of))]
    pub fn ask(self) -> Tallied<CrankAsked>
        ensures value { result.value ≡ crank_asked_of self }
        ensures systems { result.systems ≡ self.inquiry.systems }
    {
        let asked = self.inquiry.ask();
        asked.with(CrankAsked {
            k: self.k,
            asked: asked.value,
        })
    }

    // The inquiry after the reply, refused where nothing is being asked.
    #[tactic(auto, unfolding(crate::specs::Crank::crank_replied_of))]
    pub fn reply(self, yes: bool) -> Result<CrankInquiry, Refusal>
        ensures { result ≡ crank_replied_of self yes }
    {
        let inquiry = self.inquiry.reply(yes)?;
        Ok(CrankInquiry { k: self.k, inquiry })
    }
}

// What `start` and `see` show with these replies put in at once.
#[tactic(auto, using(crate::proofs::Refused::shows))]
pub fn shown_after(
    sine: Sine,
    confusion: f64,
    trig: TrigEquation,
    replies: touching::Replies,
) -> Result<Tallied<CrankShown>, CrankRefused>
    ensures value { answer_in result ≡ with_k (crank_k_of trig) (crank_shown_of sine confusion trig replies) }
    ensures systems { systems_in result ≡ crank_systems_of sine confusion trig }
{
    let made = crank_front(trig)?;
    match inquiry::shown_after(sine, &made.q, confusion, replies) {
        Ok(shown) => {
            let seen = shown.value;
            Ok(shown.with(CrankShown { k: made.k, seen }))
        }
        Err(refusal) => Err(CrankRefused { refusal, k: made.k }),
    }
}

// Every question replied no: at most three are asked, so four replies at hand answer them all, and no question is left.
// Demand 1 holds of the answer: at most four finite roots, each counting at least once, together at most the degree left.
// `sine` is the mode: the third angle's sine is that of the rounded cosine, as in the reference build, or of the exact one.
pub fn crank(
    sine: Sine,
    confusion: f64,
    trig: TrigEquation,
) -> Result<Tallied<CrankAnswer>, Refusal>
    ensures value { (answer_in result ≡ crank_of sine confusion trig)
        × Within (degree_left (trig_quartic_of trig)) (list_of (crank_roots_in (answer_in result))) }
    ensures systems { systems_in result ≡ crank_systems_of sine confusion trig }
{
    let replies = touching::Replies {
        reply: [false; 4],
        count: 4,
    };
    let shown = shown_after(sine, confusion, trig, replies)?;
    let s = shown.value;
    match s.seen.asked {
        Asked::Finished(roots) => Ok(shown.with(CrankAnswer { k: s.k, roots })),
        Asked::Question(_) => unreachable!(),
    }
}
