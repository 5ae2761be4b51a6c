// Crank equations in lent bytes, from the start: the replies so far in, one byte each, 0 for no; k and then what the inquiry shows out, as for a list,
// eighteen doubles. The answer is how many bytes are stored, 144, or the number of the refused start, or 0 where those lent are too few: nothing is stored
// then.
ghost use Rattle.std.specs.Prelude.{◌≡◌};
ghost use Rattle.angle.specs.declared.Sine.TheVariants.{OfExact};
ghost use Rattle.angle.specs.Third.{sine_numbered};
ghost use Rattle.refusals.specs.Refusals.{outcome_of};
ghost use Rattle.inquiry.specs.Inquiry.{list_in};
ghost use Rattle.tally.specs.Tally.{answer_in, systems_in};
ghost use Rattle.crank.specs.Crank.{crank_start_of, crank_shown_of, crank_systems_of};
ghost use Rattle.lent_bytes.specs.Bytes.{Answered};
ghost use Rattle.roots.specs.Listed.{Fits};
ghost use Rattle.pongewaru.specs.Quadratics.{trig_of};
ghost use Rattle.pongewaru.specs.Cranks.{crank_shown_numbers, shown_after};

use crate::SINE_OF_EXACT;
use crate::inquiries::{first_replies, seen_numbers};
use angle::Sine;
use crank::CrankShown;
use lent_bytes::answer;
use refusals::Refusal;
use tally::Tallied;
use touching::Replies;
use trig_quartic::TrigEquation;

fn crank_shown_numbers(s: Tallied<CrankShown>) -> [f64; 18]
    requires { Fits (list_in s.value.seen.asked) }
    ensures { result ≡ crank_shown_numbers s.value s.systems }
{
    let seen = s.with(s.value.seen);
    let mut numbers = [f64::from(s.value.k); 18];
    numbers[1..].copy_from_slice(&seen_numbers(seen));
    numbers
}

// What is shown, or why the start is refused: of its k nothing is told.
#[tactic(auto, using(crank::proofs::Refused::given_k, crank::proofs::Refused::refused_k))]
fn crank_shown(
    sine: Sine,
    confusion: f64,
    trig: TrigEquation,
    replies: Replies,
) -> Result<Tallied<CrankShown>, Refusal>
    ensures value { answer_in result ≡ crank_shown_of sine confusion trig replies }
    ensures systems { systems_in result ≡ crank_systems_of sine confusion trig }
{
    Ok(crank::shown_after(sine, confusion, trig, replies)?)
}

#[unsafe(no_mangle)]
#[tactic(auto, using(crate::proofs::Once::turned_fits))]
pub extern "C" fn pongewaru_crank_inquire_by(
    sine: u32,
    confusion: f64,
    a2: f64,
    b2: f64,
    c1: f64,
    d1: f64,
    e: f64,
    replies: &[u8],
    out: &mut [u8],
) -> u64
    ensures { Answered (outcome_of (crank_start_of (sine_numbered sine) confusion (trig_of a2 b2 c1 d1 e)))
        (shown_after replies.now (crank_start_of (sine_numbered sine) confusion (trig_of a2 b2 c1 d1 e))) out.old result out.new }
{
    let trig = TrigEquation { a2, b2, c1, d1, e };
    let s = crank_shown(Sine::from(sine), confusion, trig, first_replies(replies));
    answer(out, s.map(crank_shown_numbers))
}

#[unsafe(no_mangle)]
#[tactic(auto, unfolding(angle::specs::Third::sine_numbered))]
pub extern "C" fn pongewaru_crank_inquire(
    confusion: f64,
    a2: f64,
    b2: f64,
    c1: f64,
    d1: f64,
    e: f64,
    replies: &[u8],
    out: &mut [u8],
) -> u64
    ensures { Answered (outcome_of (crank_start_of OfExact confusion (trig_of a2 b2 c1 d1 e)))
        (shown_after replies.now (crank_start_of OfExact confusion (trig_of a2 b2 c1 d1 e))) out.old result out.new }
{
    pongewaru_crank_inquire_by(SINE_OF_EXACT, confusion, a2, b2, c1, d1, e, replies, out)
}
