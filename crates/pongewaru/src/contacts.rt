// Pin contacts from the numbers of a path and a circle; the list out as for `pongewaru_real_roots`. The answer is how many bytes are stored, 112, or the number
// of the refusal, or 0 where those lent are too few: nothing is stored then.
ghost use Rattle.refusals.specs.Refusals.{outcome_of};
ghost use Rattle.angle.specs.declared.Sine.TheVariants.{OfExact};
ghost use Rattle.angle.specs.Third.{sine_numbered};
ghost use Rattle.lent_bytes.specs.Bytes.{Answered};
ghost use Rattle.pongewaru.specs.Contacts.{contact_of, contact_numbers};

use crate::SINE_OF_EXACT;
use crate::lists::told_numbers;
use angle::Sine;
use contact::{Circle, Path};
use lent_bytes::answer;

#[unsafe(no_mangle)]
#[tactic(auto, using(crate::proofs::Listing::contact_told))]
pub extern "C" fn pongewaru_pin_contact_by(
    sine: u32,
    confusion: f64,
    x0: f64,
    x1: f64,
    x2: f64,
    y0: f64,
    y1: f64,
    y2: f64,
    cx: f64,
    cy: f64,
    r: f64,
    out: &mut [u8],
) -> u64
    ensures { Answered (outcome_of (contact_of (sine_numbered sine) confusion x0 x1 x2 y0 y1 y2 cx cy r))
        (contact_numbers (sine_numbered sine) confusion x0 x1 x2 y0 y1 y2 cx cy r) out.old result out.new }
{
    let path = Path {
        x0,
        x1,
        x2,
        y0,
        y1,
        y2,
    };
    let circle = Circle { cx, cy, r };
    let list = contact::pin_contact(Sine::from(sine), confusion, path, circle);
    answer(out, list.map(told_numbers))
}

#[unsafe(no_mangle)]
#[tactic(auto, unfolding(angle::specs::Third::sine_numbered))]
pub extern "C" fn pongewaru_pin_contact(
    confusion: f64,
    x0: f64,
    x1: f64,
    x2: f64,
    y0: f64,
    y1: f64,
    y2: f64,
    cx: f64,
    cy: f64,
    r: f64,
    out: &mut [u8],
) -> u64
    ensures { Answered (outcome_of (contact_of OfExact confusion x0 x1 x2 y0 y1 y2 cx cy r))
        (contact_numbers OfExact confusion x0 x1 x2 y0 y1 y2 cx cy r) out.old result out.new }
{
    pongewaru_pin_contact_by(
        SINE_OF_EXACT,
        confusion,
        x0,
        x1,
        x2,
        y0,
        y1,
        y2,
        cx,
        cy,
        r,
        out,
    )
}
