// Where a ball on a path meets a pin: request One of document 02. The quartic in t of path and circle is asked about as any list is, and each question replied
// to by the ball's distance. It rests on `sqrt`, `poly` (solve) and `inquiry`, which asks and lists; the hall file and the C functions rest on it.
#![tactic(auto)]

ghost use Rattle.std.specs.Prelude.{◌≡◌};
ghost use Rattle.roots.specs.Roots.{list_of};
ghost use Rattle.roots.specs.Listed.{Within};
ghost use Rattle.poly.specs.Coefficients.{degree_left};
ghost use Rattle.contact.specs.Contact.{seen_of, coefficients_of, distance_of, touches_of, listed_of, made_of, pin_contact_of};
ghost use Rattle.contact.specs.Contact.{pin_contact_systems_of};
ghost use Rattle.tally.specs.Tally.{answer_in, systems_in};
ghost use Rattle.poly.specs.RealRoots.{real_roots_systems_of, roots_in};

use angle::Sine;
use inquiry::Asked;
use refusals::Refusal;
use roots::Roots;
use tally::Tallied;

// The six letters of document 02's record: the ball is at x0 + x1*t + x2*t^2 across, and likewise y along.
#[derive(Clone, Copy)]
pub struct Path {
    pub x0: f64,
    pub x1: f64,
    pub x2: f64,
    pub y0: f64,
    pub y1: f64,
    pub y2: f64,
}

// A circle: its centre and its radius.
#[derive(Clone, Copy)]
pub struct Circle {
    pub cx: f64,
    pub cy: f64,
    pub r: f64,
}

impl Path {
    // The path as it is seen from the circle's centre.
    #[tactic(auto, unfolding(crate::specs::Contact::seen_of))]
    fn seen(self, circle: Circle) -> Path
        ensures { result ≡ seen_of self circle }
    {
        Path {
            x0: self.x0 - circle.cx,
            x1: self.x1,
            x2: self.x2,
            y0: self.y0 - circle.cy,
            y1: self.y1,
            y2: self.y2,
        }
    }

    // The square of the distance less that of the radius: ascending coefficients.
    #[tactic(auto, unfolding(crate::specs::Contact::coefficients_of))]
    fn coefficients(self, r: f64) -> [f64; 5]
        ensures { result ≡ coefficients_of self r }
    {
        [
            self.x0 * self.x0 + self.y0 * self.y0 - r * r,
            2.0 * (self.x0 * self.x1 + self.y0 * self.y1),
            self.x1 * self.x1 + self.y1 * self.y1 + 2.0 * (self.x0 * self.x2 + self.y0 * self.y2),
            2.0 * (self.x1 * self.x2 + self.y1 * self.y2),
            self.x2 * self.x2 + self.y2 * self.y2,
        ]
    }

    // The distance from the centre at t.
    #[tactic(auto, unfolding(crate::specs::Contact::distance_of))]
    fn distance(self, t: f64) -> f64
        ensures { result ≡ distance_of self t }
    {
        let x = self.x0 + t * (self.x1 + t * self.x2);
        let y = self.y0 + t * (self.y1 + t * self.y2);
        sqrt::sqrt(x * x + y * y)
    }

    // The reply to a question at t.
    #[tactic(auto, unfolding(crate::specs::Contact::touches_of))]
    fn touches(self, confusion: f64, r: f64, t: f64) -> bool
        ensures { result ≡ touches_of confusion self r t }
    {
        float::abs(self.distance(t) - r) <= confusion
    }
}

// At most three questions are asked, so the loop ends. Nothing looks at a logarithm, so a level list is solved without.
// One reply after another, as documents 01 and 02 have them of an inquiry: a walk that calls a closure would be a second one beside that of replies at hand.
fn listed(
    sine: Sine,
    confusion: f64,
    p: Path,
    r: f64,
    coeffs: &[f64],
) -> Result<Tallied<Roots>, Refusal>
    ensures value { answer_in result ≡ listed_of sine confusion p r coeffs.now }
    ensures systems { systems_in result ≡ real_roots_systems_of sine coeffs.now confusion }
{
    let s = poly::solve_brief(sine, coeffs, confusion)?;
    let mut replies = touching::Replies::default();
    loop {
        match inquiry::asked_with(s, replies) {
            Asked::Question(t) => replies = replies.with(p.touches(confusion, r, t)),
            Asked::Finished(value) => {
                let systems = s.systems;
                return Ok(Tallied { value, systems });
            }
        }
    }
}

// 10, 11 and 12 are refused by the record, in this order; 2 by the list, as for any list.
// Demand 1 holds of the answer: at most four finite roots, each counting at least once, together at most the degree left.
// `sine` is the mode: the third angle's sine is that of the rounded cosine, as in the reference build, or of the exact one.
#[tactic(auto, using(crate::proofs::Theorem::holds), unfolding(crate::specs::Contact::pin_contact_of))]
pub fn pin_contact(
    sine: Sine,
    confusion: f64,
    path: Path,
    circle: Circle,
) -> Result<Tallied<Roots>, Refusal>
    ensures value { (answer_in result ≡ pin_contact_of sine confusion path circle)
        × Within (degree_left (made_of path circle)) (list_of (roots_in (answer_in result))) }
    ensures systems { systems_in result ≡ pin_contact_systems_of sine confusion path circle }
{
    let handed = [
        confusion, path.x0, path.x1, path.x2, path.y0, path.y1, path.y2, circle.cx, circle.cy,
        circle.r,
    ];
    if !float::all_finite(&handed) {
        return Err(Refusal::RecordNotFinite);
    }
    if !(circle.r > 0.0) {
        return Err(Refusal::NoRadius);
    }
    let p = path.seen(circle);
    let coeffs = p.coefficients(circle.r);
    if !float::all_finite(&coeffs) {
        return Err(Refusal::MadeNotFinite);
    }
    listed(sine, confusion, p, circle.r, &coeffs)
}
