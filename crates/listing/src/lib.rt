// The hall file: records in, lines and their total out, into a lent buffer.
// It rests on `records`, the solver, `lent_bytes`, `text` and `float`; the program rests on it.
#![tactic(auto)]

ghost use Rattle.std.specs.Prelude.{◌≡◌, ◌^◌, ◌<◌, length};
ghost use Rattle.std.proofs.lemmas.List.Edits.{sets};
ghost use Rattle.text.specs.Written.{Written};
ghost use Rattle.listing.specs.Totals.{total_of};
ghost use Rattle.listing.specs.File.{record_lines, listing};

use angle::Sine;
use lines::{put_line, put_total};
use records::Kind;
use refusals::Refusal;
use text::Text;
use total::Total;

pub mod lines;
pub mod numbers;
pub mod total;

// The lines of the records of the file s, as text; their total.
fn put_lines(sine: Sine, out: &mut Text, s: &[u8]) -> Total
    requires { out.old.at < 2 ^ 29 }
    ensures text { Written out.old (record_lines sine s.now) out.new }
    ensures total { result ≡ total_of sine s.now }
{
    if 65536 < s.len() {
        let none = records::ended(s, Kind::Unknown, Refusal::FileTooLong);
        return put_line(sine, out, 0, s, 0, none);
    }
    let mut at = 0;
    let mut total = Total::default();
    // (A while: where the next record starts is read from this one. An iterator would put these lines into a `next` with two ghost members.)
    while at < s.len() {
        let found = records::record_at(s, at);
        let line = put_line(sine, out, total.records + 1, s, at, found);
        total += line;
        at = found.next;
    }
    total
}

// The listing of the file s, as text.
#[tactic(auto, using(text::proofs::Laws::written_then, crate::proofs::Bound::record_lines_fit), unfolding(crate::specs::File::listing))]
fn put_listing(sine: Sine, out: &mut Text, s: &[u8])
    requires { out.old.at < 2 ^ 29 }
    ensures { Written out.old (listing sine s.now) out.new }
{
    let total = put_lines(sine, out, s);
    put_total(out, total);
}

// Stores the listing of the file s from the start of out on, as far as out reaches, and answers how long the listing is.
// `sine` is the mode: the third angle's sine is that of the rounded cosine, as in the reference build, or of the exact one.
pub fn list_file(sine: Sine, s: &[u8], out: &mut [u8]) -> usize
    ensures value { result ≡ length (listing sine s.now) }
    ensures out_after { out.new ≡ sets out.old 0 (listing sine s.now) }
{
    let mut text = Text { out, at: 0 };
    put_listing(sine, &mut text, s);
    text.at
}
