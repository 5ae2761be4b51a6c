// What real_roots_touching of poly.rs does after `finish`, walked with the replies at hand: the pairs among the items, and the chains of items that touch.
// A walk ends at its first place that has no reply yet, or with its value. It rests on `critical` (extremum), `finish` (ordered), `scaled`, `roots`, `ldexp`,
// the definitions of `poly`, and `asking`, which says what a computation that asks is; the inquiry rests on it.
#![tactic(auto)]

ghost use Rattle.std.specs.Prelude.{◌≡◌, ◌<◌, ◌≤◌};
ghost use Rattle.touching.specs.Replies.{no_replies, replied_by, RepliesFit};

pub mod chains;
pub mod items;
pub mod whole;

// The replies so far: at most degree - 1. An array with a count, as Roots is: an inquiry goes by value and takes any count.
#[derive(Clone, Copy)]
pub struct Replies {
    pub reply: [bool; 4],
    pub count: usize,
}

impl Default for Replies {
    ghost is_default = { λ r. r ≡ no_replies };

    fn default() -> Replies {
        Replies {
            reply: [false; 4],
            count: 0,
        }
    }
}

// What a walk reads: the polynomial, the tolerance, and the replies at hand.
#[derive(Clone, Copy)]
pub struct Walker {
    pub poly: scaled::Scaled,
    pub tol: f64,
    pub replies: Replies,
    pub ghost degree: { poly.d ≤ 4 },
    pub ghost fits: { RepliesFit replies },
}

// A place that has no reply yet: there a walk ends.
#[derive(Clone, Copy)]
pub struct Question {
    pub place: f64,
}

// A reply, or no where nothing is asked. `used` replies are behind it. (One generic struct for this and the two like it would need a ghost reading of its
// value for each: the reply itself, the list of items, chain and list.)
#[derive(Clone, Copy)]
pub struct Heard {
    pub yes: bool,
    pub used: usize,
}

// The items so far, likewise.
#[derive(Clone, Copy)]
pub struct Walk {
    pub items: roots::Roots,
    pub used: usize,
}

// Roots linked by touching critical points between them.
#[derive(Clone, Copy)]
pub struct Chain {
    pub first: f64,
    pub last: f64,
    pub at: f64,
    pub touching: u32,
    pub mult: u32,
    pub kind: roots::RootKind,
}

// The chain at hand, if there is one, and the list so far, likewise.
// (ItemRoom and Held are said of two values at once, links and the next item, roots and pairs, so no ghost field of one of them says them.)
#[derive(Clone, Copy)]
pub struct Links {
    pub chain: Option<Chain>,
    pub out: roots::Roots,
    pub used: usize,
}

impl Replies {
    // One reply more.
    pub fn with(mut self, yes: bool) -> Replies
        requires { self.count < 4 }
        ensures { result ≡ replied_by self yes }
    {
        self.reply[self.count] = yes;
        self.count += 1;
        self
    }
}
