// Where the records of a file stand, and which bytes are refused.
// It rests on `refusals`; the hall file's listing rests on it.
#![tactic(auto)]

ghost use Rattle.std.specs.Prelude.{◌≡◌, ◌+◌, ◌^◌, ◌≤◌, ◌<◌, length};
ghost use Rattle.records.specs.Marks.{mark_of, kind_at};
ghost use Rattle.records.specs.Records.{ended_of, held_of, counted_of, record_at};

use refusals::Refusal;

// A record's mark says its kind. (`Unknown` is a variant and no `None`: every record has a kind, and prints its mark, `--` where none was read.)
#[derive(Clone, Copy, PartialEq, Eq, Debug)]
pub enum Kind {
    Polynomial,
    Quadratic,
    Crank,
    Contact,
    Formula,
    Unknown,
}

// A record: its kind, why its bytes are refused where it doesn't stand whole, and where the next one starts.
#[derive(Clone, Copy)]
pub struct Record {
    pub kind: Kind,
    pub refused: Option<Refusal>,
    pub next: usize,
}

// The mark that is read before a record and written in its line.
impl From<Kind> for [u8; 2] {
    ghost from_gives = { λ kind mark. mark ≡ mark_of kind };

    fn from(kind: Kind) -> [u8; 2] {
        match kind {
            Kind::Polynomial => *b"PL",
            Kind::Quadratic => *b"QD",
            Kind::Crank => *b"TG",
            Kind::Contact => *b"PC",
            Kind::Formula => *b"TX",
            Kind::Unknown => *b"--",
        }
    }
}

// The kind with this mark.
impl From<[u8; 2]> for Kind {
    ghost from_gives = { λ mark kind. kind ≡ kind_at mark 0 };

    #[tactic(auto, unfolding(crate::specs::Marks::kind_at))]
    fn from(mark: [u8; 2]) -> Kind {
        match &mark {
            b"PL" => Kind::Polynomial,
            b"QD" => Kind::Quadratic,
            b"TG" => Kind::Crank,
            b"PC" => Kind::Contact,
            b"TX" => Kind::Formula,
            _ => Kind::Unknown,
        }
    }
}

// A refusal after which reading ends.
pub fn ended(s: &[u8], kind: Kind, refusal: Refusal) -> Record
    ensures { result ≡ ended_of kind refusal s.now }
{
    Record {
        kind,
        refused: Some(refusal),
        next: s.len(),
    }
}

// A record of this many bytes, if so many are left.
// (A file and a place, here and below: the listing's definitions count places from its start.)
#[tactic(auto, unfolding(crate::specs::Records::held_of))]
fn held(s: &[u8], at: usize, kind: Kind, size: usize) -> Record
    requires { (at ≤ length s.now) × (size < 2 ^ 32) }
    ensures { result ≡ held_of kind size s.now at }
{
    if s.len() - at < size {
        return ended(s, kind, Refusal::Cut);
    }
    Record {
        kind,
        refused: None,
        next: at + size,
    }
}

// A count byte, of `most` at most, a tolerance, and as many entries of `size` bytes each as the count says.
#[tactic(auto, unfolding(crate::specs::Records::counted_of))]
fn counted(s: &[u8], at: usize, kind: Kind, size: usize, most: usize) -> Record
    requires { (at ≤ length s.now) × (size ≤ 8) }
    ensures { result ≡ counted_of kind size most s.now at }
{
    let Some(&count) = s.get(at + 2) else {
        return ended(s, kind, Refusal::Cut);
    };
    let count = count as usize;
    if most < count {
        return ended(s, kind, Refusal::CountTooLarge);
    }
    held(s, at, kind, 11 + size * count)
}

#[tactic(auto, using(crate::proofs::Places::reads), unfolding(crate::specs::Records::record_of))]
pub fn record_at(s: &[u8], at: usize) -> Record
    requires { at ≤ length s.now }
    ensures { result ≡ record_at s.now at }
{
    let Some(&mark) = s[at..].first_chunk::<2>() else {
        return ended(s, Kind::Unknown, Refusal::Cut);
    };
    let kind = Kind::from(mark);
    match kind {
        Kind::Polynomial => counted(s, at, kind, 8, 32),
        Kind::Quadratic => held(s, at, kind, 42),
        Kind::Crank => held(s, at, kind, 50),
        Kind::Contact => held(s, at, kind, 82),
        Kind::Formula => counted(s, at, kind, 1, 255),
        Kind::Unknown => ended(s, kind, Refusal::UnknownMark),
    }
}
