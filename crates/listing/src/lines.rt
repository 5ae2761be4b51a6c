// The line of a record, and the last line of a listing, as text.
ghost use Rattle.std.specs.Prelude.{◌≡◌, ◌^◌, ◌<◌, ◌≤◌, length};
ghost use Rattle.text.specs.Digits.{decimal};
ghost use Rattle.refusals.specs.Refusals.{number_of};
ghost use Rattle.roots.specs.Roots.{no_roots};
ghost use Rattle.poly.specs.RealRoots.{roots_in};
ghost use Rattle.crank.specs.Crank.{crank_roots_in};
ghost use Rattle.text.specs.Written.{Written};
ghost use Rattle.records.specs.Records.{Whole, Sound};
ghost use Rattle.listing.specs.Words.{letter_of};
ghost use Rattle.listing.specs.Lines.{place_text, kind_text, root_text, roots_text, refused_text, polynomial_text, solution_text, quadratic_text, crank_text};
ghost use Rattle.listing.specs.Lines.{answer_text, words_of, head_of, line_of, total_text};
ghost use Rattle.listing.specs.Totals.{line_total, listed_at, record_total};
ghost use Rattle.listing.specs.Printable.{Printable, CrankPrintable};

use crate::total::Total;
use angle::Sine;
use crank::CrankAnswer;
use records::{Kind, Record};
use refusals::Refusal;
use roots::{RealRoot, RootKind, Roots};
use solution::QuadraticSolution;
use text::Text;

// A blank, and the 16 hexadecimal digits of the place's bits. (Here and below a bound on `at` for each, doubled from a line to its parts: a ghost bound on Text
// would have to be given anew behind each part, by its length.)
#[tactic(auto, using(text::proofs::Laws::written_then), unfolding(crate::specs::Lines::place_text))]
fn put_place(out: &mut Text, x: f64)
    requires { out.old.at < 2 ^ 33 }
    ensures { Written out.old (place_text x) out.new }
{
    out.byte(b' ');
    out.hex(float::to_bits(x), 16);
}

// (No From: it would be for two types of other crates, and roots knows no letters of a listing.)
fn letter(kind: RootKind) -> u8
    ensures { result ≡ letter_of kind }
{
    match kind {
        RootKind::Crossing => b'c',
        RootKind::Brush => b'b',
        RootKind::Flat => b'f',
    }
}

// A blank, and the letter of the kind.
fn put_kind(out: &mut Text, kind: RootKind)
    requires { out.old.at < 2 ^ 34 }
    ensures { Written out.old (kind_text kind) out.new }
{
    out.byte(b' ');
    out.byte(letter(kind));
}

// The place, and behind a blank its multiplicity, and the kind.
#[tactic(auto, using(crate::proofs::Texts::place_length, crate::proofs::Texts::two_digits))]
fn put_root(out: &mut Text, root: RealRoot)
    requires { (out.old.at < 2 ^ 33) × (root.multiplicity < 100) }
    ensures { Written out.old (root_text root) out.new }
{
    put_place(out, root.value);
    out.byte(b' ');
    out.decimal(root.multiplicity as u64);
    let kind = root.kind;
    put_kind(out, kind);
}

// How many roots, and each of them.
#[tactic(auto, using(crate::proofs::Texts::count_length))]
fn put_roots(out: &mut Text, roots: Roots)
    requires { (out.old.at < 2 ^ 32) × Printable roots }
    ensures { Written out.old (roots_text roots) out.new }
{
    out.decimal(roots.len as u64);
    for root in &roots.root[..roots.len] {
        put_root(out, *root);
    }
}

#[tactic(auto, using(text::proofs::Laws::written_then, crate::proofs::Texts::number_length), unfolding(crate::specs::Lines::refused_text))]
fn put_refused(out: &mut Text, refusal: Refusal) -> Total
    requires { out.old.at < 2 ^ 32 }
    ensures text { Written out.old (refused_text (number_of refusal)) out.new }
    ensures total { result ≡ line_total no_roots }
{
    out.bytes(b"refused ");
    out.decimal(u32::from(refusal) as u64);
    Total::LINE
}

#[tactic(auto, using(text::proofs::Laws::written_then), unfolding(crate::specs::Lines::polynomial_text))]
fn put_polynomial(out: &mut Text, a: Result<Roots, Refusal>) -> Total
    requires { (out.old.at < 2 ^ 31) × Printable (roots_in a) }
    ensures text { Written out.old (polynomial_text a) out.new }
    ensures total { result ≡ line_total (roots_in a) }
{
    match a {
        Ok(roots) => {
            out.bytes(b"ok ");
            put_roots(out, roots);
            Total::line(&roots)
        }
        Err(refusal) => put_refused(out, refusal),
    }
}

#[tactic(auto, using(text::proofs::Laws::written_then, crate::proofs::Texts::place_length), unfolding(crate::specs::Lines::solution_text))]
fn put_solution(out: &mut Text, solution: QuadraticSolution)
    requires { out.old.at < 2 ^ 32 }
    ensures { Written out.old (solution_text solution) out.new }
{
    match solution {
        QuadraticSolution::Two(x, y) => {
            out.bytes(b"two");
            put_place(out, x);
            put_place(out, y);
        }
        QuadraticSolution::One(x) => {
            out.bytes(b"one");
            put_place(out, x);
        }
        QuadraticSolution::Linear(x) => {
            out.bytes(b"linear");
            put_place(out, x);
        }
        QuadraticSolution::Degenerate => out.bytes(b"degenerate"),
        QuadraticSolution::Empty => out.bytes(b"empty"),
    }
}

#[tactic(auto, unfolding(crate::specs::Lines::quadratic_text))]
fn put_quadratic(out: &mut Text, a: Result<QuadraticSolution, Refusal>) -> Total
    requires { out.old.at < 2 ^ 31 }
    ensures text { Written out.old (quadratic_text a) out.new }
    ensures total { result ≡ line_total no_roots }
{
    match a {
        Ok(solution) => {
            put_solution(out, solution);
            Total::LINE
        }
        Err(refusal) => put_refused(out, refusal),
    }
}

#[tactic(auto, using(text::proofs::Laws::written_then, crate::proofs::Texts::digit_length), unfolding(crate::specs::Lines::crank_text))]
fn put_crank(out: &mut Text, a: Result<CrankAnswer, Refusal>) -> Total
    requires { (out.old.at < 2 ^ 31) × CrankPrintable a }
    ensures text { Written out.old (crank_text a) out.new }
    ensures total { result ≡ line_total (crank_roots_in a) }
{
    match a {
        Ok(answer) => {
            out.bytes(b"ok ");
            out.decimal(answer.k as u64);
            out.byte(b' ');
            let roots = answer.roots;
            put_roots(out, roots);
            Total::line(&roots)
        }
        Err(refusal) => put_refused(out, refusal),
    }
}

// What the solver answers to the record at `at`, which stands whole; its line's total.
#[tactic(auto, using(crate::proofs::Asked::prints), unfolding(crate::specs::Lines::answer_text, crate::specs::Totals::listed_at))]
fn put_answer(sine: Sine, out: &mut Text, s: &[u8], at: usize, kind: Kind) -> Total
    requires { (out.old.at < 2 ^ 31) × Whole kind s.now at }
    ensures text { Written out.old (answer_text sine kind s.now at) out.new }
    ensures total { result ≡ line_total (listed_at sine kind s.now at) }
{
    match kind {
        Kind::Polynomial => put_polynomial(out, crate::numbers::polynomial_at(sine, s, at)),
        Kind::Quadratic => put_quadratic(out, crate::numbers::quadratic_at(s, at)),
        Kind::Crank => put_crank(out, crate::numbers::crank_at(sine, s, at)),
        Kind::Contact => put_polynomial(out, crate::numbers::contact_at(sine, s, at)),
        Kind::Formula => put_polynomial(out, crate::numbers::formula_at(sine, s, at)),
        Kind::Unknown => Total::LINE,
    }
}

// The record's number and its mark, each before a blank.
fn put_head(out: &mut Text, n: u64, kind: Kind)
    requires { (out.old.at < 2 ^ 30) × (length (decimal n) ≤ 5) }
    ensures { Written out.old (head_of n kind) out.new }
{
    out.decimal(n);
    out.byte(b' ');
    out.bytes(&<[u8; 2]>::from(kind));
    out.byte(b' ');
}

// What stands behind the mark.
#[tactic(auto, unfolding(crate::specs::Lines::words_of, crate::specs::Totals::record_total))]
fn put_words(sine: Sine, out: &mut Text, s: &[u8], at: usize, found: Record) -> Total
    requires { (out.old.at < 2 ^ 31) × Sound found s.now at }
    ensures text { Written out.old (words_of sine s.now at found) out.new }
    ensures total { result ≡ record_total sine s.now at found }
{
    let kind = found.kind;
    match found.refused {
        Some(refusal) => put_refused(out, refusal),
        None => put_answer(sine, out, s, at, kind),
    }
}

// The n-th line, that of the record at `at`; its total.
#[tactic(auto, using(crate::proofs::Texts::head_length, crate::proofs::Texts::five_digits, crate::proofs::Asked::words_length))]
pub fn put_line(sine: Sine, out: &mut Text, n: u64, s: &[u8], at: usize, found: Record) -> Total
    requires { (out.old.at < 2 ^ 30) × ((n < 100000) × Sound found s.now at) }
    ensures text { Written out.old (line_of sine n s.now at found) out.new }
    ensures total { result ≡ record_total sine s.now at found }
{
    let kind = found.kind;
    put_head(out, n, kind);
    let total = put_words(sine, out, s, at, found);
    out.byte(b'\n');
    total
}

// The last line.
#[tactic(auto, using(crate::proofs::Texts::word_length))]
pub fn put_total(out: &mut Text, total: Total)
    requires { out.old.at < 2 ^ 31 }
    ensures { Written out.old (total_text total) out.new }
{
    out.bytes(b"T ");
    out.decimal(total.records);
    out.byte(b' ');
    out.decimal(total.roots);
    out.byte(b' ');
    out.decimal(total.multiplicities);
    out.byte(b'\n');
}
