// Inquiries in lent bytes, from the start: coefficients as for a list and the replies so far in, one byte each, 0 for no; what the inquiry shows then out, as
// doubles: 0, or 4 where a reply was refused; 1 and the place where it asks, 0 and 0 where not; and the list as for `real_roots`. The answer is how many bytes
// are stored, 136, or the number of the refused start, as for a list, or 0 where those lent are too few: nothing is stored then.
ghost use Rattle.std.specs.Prelude.{◌≡◌};
ghost use Rattle.angle.specs.declared.Sine.TheVariants.{OfExact};
ghost use Rattle.angle.specs.Third.{sine_numbered};
ghost use Rattle.refusals.specs.Refusals.{number_in};
ghost use Rattle.roots.specs.Listed.{Fits};
ghost use Rattle.inquiry.specs.Inquiry.{list_in};
ghost use Rattle.lent_bytes.specs.Bytes.{Answered};
ghost use Rattle.pongewaru.specs.Inquiries.{shown_numbers, first_replies, seen_numbers, inquiry_refusal, shown_at};

use crate::SINE_OF_EXACT;
use crate::lists::{not_doubles, told_numbers};
use angle::Sine;
use inquiry::{Asked, Seen};
use lent_bytes::answer;
use lent_coefficients::short_at;
use refusals::Refusal;
use roots::Roots;
use tally::Tallied;
use touching::Replies;

// Those after the first four are left out: at most three questions are asked, so that each is refused, as the fourth is.
#[tactic(auto, using(crate::proofs::Feeding::fed), unfolding(crate::specs::Inquiries::first_replies))]
pub fn first_replies(replies: &[u8]) -> Replies
    ensures { result ≡ first_replies replies.now }
{
    let mut first = Replies::default();
    for reply in &replies[..replies.len().min(4)] {
        first = first.with(*reply != 0);
    }
    first
}

// The last reply's number, whether there is a question, its place, and the list with its systems. (Number, flag and place, and no Asked: they are the doubles
// that C is told, in their order.)
fn shown_numbers(number: u32, asks: bool, place: f64, list: Tallied<Roots>) -> [f64; 17]
    requires { Fits list.value }
    ensures { result ≡ shown_numbers number asks place list.value list.systems }
{
    let mut numbers = [number as f64; 17];
    numbers[1] = f64::from(asks);
    numbers[2] = place;
    numbers[3..].copy_from_slice(&told_numbers(list));
    numbers
}

// The number of the refusal that there may be.
fn number_in(refused: Option<Refusal>) -> u32
    ensures { result ≡ number_in refused }
{
    refused.map_or(0, u32::from)
}

pub fn seen_numbers(s: Tallied<Seen>) -> [f64; 17]
    requires { Fits (list_in s.value.asked) }
    ensures { result ≡ seen_numbers s.value s.systems }
{
    let number = number_in(s.value.refused);
    match s.value.asked {
        Asked::Question(place) => shown_numbers(number, true, place, s.with(Roots::default())),
        Asked::Finished(list) => shown_numbers(number, false, 0.0, s.with(list)),
    }
}

#[unsafe(no_mangle)]
#[tactic(auto, using(crate::proofs::Listing::inquiry_told), unfolding(lent_bytes::specs::Bytes::unless))]
pub extern "C" fn pongewaru_inquire_by(
    sine: u32,
    coeffs: &[u8],
    tol: f64,
    replies: &[u8],
    out: &mut [u8],
) -> u64
    ensures { Answered (inquiry_refusal (sine_numbered sine) coeffs.now tol)
        (shown_at (sine_numbered sine) coeffs.now tol replies.now) out.old result out.new }
{
    if not_doubles(coeffs) {
        return answer::<0>(out, Err(Refusal::CutDouble));
    }
    let s = inquiry::shown_after(
        Sine::from(sine),
        &short_at(coeffs),
        tol,
        first_replies(replies),
    );
    answer(out, s.map(seen_numbers))
}

#[unsafe(no_mangle)]
#[tactic(auto, unfolding(angle::specs::Third::sine_numbered))]
pub extern "C" fn pongewaru_inquire(coeffs: &[u8], tol: f64, replies: &[u8], out: &mut [u8]) -> u64
    ensures { Answered (inquiry_refusal OfExact coeffs.now tol) (shown_at OfExact coeffs.now tol replies.now)
        out.old result out.new }
{
    pongewaru_inquire_by(SINE_OF_EXACT, coeffs, tol, replies, out)
}
