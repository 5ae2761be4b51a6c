// Formulas as mechanics write them: a text is read as a sum of terms of factors and expanded on the way, exactly, into at most five
// coefficients. It rests on `parts`; the hall file rests on it.
#![tactic(auto)]

ghost use Rattle.std.specs.Prelude.{◌≡◌, ◌≤◌, length, drop, IfSome};
ghost use Rattle.std.specs.Float.{binary64};
ghost use Rattle.std.specs.Float.Ieee.{of_int};
ghost use Rattle.parts.specs.Polynomial.{trimmed};
ghost use Rattle.parts.specs.Part.{coefficient_in, value_in};
ghost use Rattle.formula.specs.Expansion.{sum_of, term_of, factor_of};
ghost use Rattle.formula.specs.Reading.{read_sum, read_term, read_factor, read_unit, read_number};
ghost use Rattle.formula.specs.Formula.{formula_of, expanded_of, expand_of};
ghost use Rattle.formula.specs.Readers.{is_at, sign_operator, Digit, Ahead, Inside, Further, HasRead, Reads, Based, Closed, Powered, Shut, Joined, Joins};

use cursor::Cursor;
use parts::{Operator, Part};
use refusals::Refusal;

mod cursor;

// Coefficients for the list operation, and how many: a C function hands out both, and nothing here has a heap.
#[derive(Clone, Copy)]
pub struct Expanded {
    pub len: usize,
    pub coeffs: [f64; 5],
}

// ---- bytes

#[tactic(auto, unfolding(crate::specs::Readers::is_at))]
fn is_at(s: &[u8], i: usize, b: u8) -> bool
    ensures { result ≡ is_at s.now i b }
{
    s.get(i) == Some(&b)
}

// The operator of the sign at i, if there is one.
#[tactic(auto, unfolding(crate::specs::Readers::is_at, crate::specs::Readers::sign_at))]
fn operator_at(s: &[u8], i: usize) -> Option<Operator>
    ensures { result ≡ sign_operator s.now i }
{
    match s.get(i)? {
        b'+' => Some(Operator::Sum),
        b'-' => Some(Operator::Difference),
        _ => None,
    }
}

// The digit at i, if there is one.
#[tactic(auto, unfolding(crate::specs::Readers::digit_at))]
fn digit(s: &[u8], i: usize) -> Option<u64>
    ensures { Digit s.now i result }
{
    match *s.get(i)? {
        b @ b'0'..=b'9' => Some((b - b'0') as u64),
        _ => None,
    }
}

// ---- factors

// A whole number of one to nine digits. (A while: it ends on the byte that is read, and at the tenth digit; `take_while(..).count()` and a fold over as many
// would read each digit twice, and the fold's closure would owe the bound of n.)
#[tactic(auto, using(crate::proofs::Factors::numbers))]
fn number(s: &[u8], at: usize) -> Option<Cursor>
    requires { at ≤ length s.now }
    ensures ahead { IfSome result (Ahead s.now at) }
    ensures based { Based s.now result (read_number (drop at s.now)) }
{
    let mut n: u64 = 0;
    let mut i = at;
    while let Some(d) = digit(s, i) {
        if i - at == 9 {
            return None;
        }
        n = 10 * n + d;
        i += 1;
    }
    if i == at {
        return None;
    }
    Some(Cursor {
        next: i,
        part: Ok(parts::number(n)),
    })
}

// A whole number, or the letter t.
#[tactic(auto, using(crate::proofs::Factors::unit_number))]
fn unit(s: &[u8], at: usize) -> Option<Cursor>
    requires { at ≤ length s.now }
    ensures ahead { IfSome result (Ahead s.now at) }
    ensures based { Based s.now result (read_unit (drop at s.now)) }
{
    if is_at(s, at, b't') {
        return Some(Cursor {
            next: at + 1,
            part: Ok(parts::letter()),
        });
    }
    number(s, at)
}

// A sum, where its bracket closes next.
#[tactic(auto, using(crate::proofs::Factors::closed_open))]
fn closed(s: &[u8], inner: Cursor) -> Option<Cursor>
    requires { inner.next ≤ length s.now }
    ensures ahead { IfSome result (Ahead s.now inner.next) }
    ensures closed { Closed s.now inner result }
{
    let at = inner.next;
    if is_at(s, at, b')') {
        return Some(Cursor {
            next: at + 1,
            ..inner
        });
    }
    None
}

// What was read, to the power that comes next, if one does.
#[tactic(auto, using(crate::proofs::Factors::powered_none))]
fn powered(s: &[u8], base: Cursor) -> Option<Cursor>
    requires { base.next ≤ length s.now }
    ensures ahead { IfSome result (Ahead s.now base.next) }
    ensures powered { Powered s.now base result }
{
    let at = base.next;
    if !is_at(s, at, b'^') {
        return Some(base);
    }
    let d = digit(s, at + 1)?;
    Some(Cursor {
        next: at + 2,
        part: parts::power(base.part, d),
    })
}

// A factor with no brackets. (Out of line, as `bracketed` and `join`: what they copy stands in no reader's frame, which spares stack for each open bracket.)
#[inline(never)]
fn bare(s: &[u8], at: usize) -> Option<Cursor>
    requires { at ≤ length s.now }
    ensures ahead { IfSome result (Ahead s.now at) }
    ensures read { HasRead factor_of s.now (read_unit (drop at s.now)) result }
{
    let base = unit(s, at)?;
    powered(s, base)
}

// A factor in brackets, by the sum in them, if that was read.
#[inline(never)]
fn bracketed(s: &[u8], inner: Option<Cursor>) -> Option<Cursor>
    requires { IfSome inner (Inside s.now) }
    ensures further { Further s.now inner result }
    ensures shut { Shut s.now inner result }
{
    let base = closed(s, inner?)?;
    powered(s, base)
}

// ---- joins

// The result takes the place of the right operand.
fn joined(op: Operator, left: Cursor, right: Cursor) -> Cursor
    ensures { Joined op left right result }
{
    let mut part = right.part;
    part = parts::join(op, left.part, part);
    Cursor {
        next: right.next,
        part,
    }
}

// Both, in the left one's place, if both were read.
#[inline(never)]
fn join(op: Operator, left: &mut Option<Cursor>, right: Option<Cursor>)
    ensures { Joins op left.old right left.new }
{
    *left = match (*left, right) {
        (Some(a), Some(b)) => Some(joined(op, a, b)),
        _ => None,
    };
}

// ---- the readers: a sum reads terms, a term factors, and a factor in brackets a sum, from a place on. (A text and a place, not what is left of it: a slice in
// each cursor takes more of the stack, for each open bracket, and a text may open 255.)

// (A sum and a term by themselves, as document 02 has them: one loop over a reader would be handed functions of its own cycle.)
#[tactic(auto, using(crate::proofs::Bytes::sign_inside, crate::proofs::Bytes::sign_some))]
#[cycle(factor_sum_term)]
fn sum(s: &[u8], at: usize) -> Option<Cursor>
    requires { at ≤ length s.now }
    ensures { Reads read_sum sum_of 3 s.now at result }
{
    let first = term(s, at);
    let Some(c) = first else {
        return None;
    };
    // (What is one term is copied no more than once, whatever it opens.)
    if operator_at(s, c.next).is_none() {
        return first;
    }
    let mut left = first;
    // (A while: a sign says whether one more term comes, and that term's text where the next sign stands; no iterator knows how far that is.)
    while let Some(c) = left {
        let Some(op) = operator_at(s, c.next) else {
            return left;
        };
        let right = term(s, c.next + 1);
        join(op, &mut left, right);
    }
    left
}

#[tactic(auto, using(crate::proofs::Bytes::at_inside))]
#[cycle(factor_sum_term)]
fn term(s: &[u8], at: usize) -> Option<Cursor>
    requires { at ≤ length s.now }
    ensures { Reads read_term term_of 2 s.now at result }
{
    let first = factor(s, at);
    let Some(c) = first else {
        return None;
    };
    if !is_at(s, c.next, b'*') {
        return first;
    }
    let mut left = first;
    // (A while, likewise.)
    while let Some(c) = left {
        if !is_at(s, c.next, b'*') {
            return left;
        }
        let right = factor(s, c.next + 1);
        join(Operator::Product, &mut left, right);
    }
    left
}

// (In line in `term`: a frame and a copy less for each open bracket.)
#[tactic(auto, using(crate::proofs::Bytes::at_inside))]
#[cycle(factor_sum_term)]
#[inline(always)]
fn factor(s: &[u8], at: usize) -> Option<Cursor>
    requires { at ≤ length s.now }
    ensures { Reads read_factor factor_of 1 s.now at result }
{
    if !is_at(s, at, b'(') {
        return bare(s, at);
    }
    let inner = sum(s, at + 1);
    let Some(c) = inner else {
        return None;
    };
    // (`bracketed` says the same. Most brackets carry no power, and then nothing more is called.)
    if is_at(s, c.next, b')') && !is_at(s, c.next + 1, b'^') {
        return Some(Cursor {
            next: c.next + 1,
            ..c
        });
    }
    bracketed(s, inner)
}

// ---- the answer

// Exactly, since no coefficient is above 2^53 in size.
fn float_at(a: Part, k: usize) -> f64
    ensures { result ≡ of_int binary64 (coefficient_in a k) }
{
    parts::entry(a.coeffs, k) as f64
}

// (No From<Part>: a public impl, whose one call is this; its name would say no more than answered does.)
fn answered(a: Part) -> Expanded
    ensures { result ≡ expanded_of (trimmed a.coeffs) }
{
    Expanded {
        len: parts::len(a),
        coeffs: std::array::from_fn(|k| float_at(a, k)),
    }
}

// A sum that is all of the text.
#[tactic(auto, using(crate::proofs::Whole::text_unread, crate::proofs::Whole::text_read))]
fn value(s: &[u8]) -> Result<Part, Refusal>
    ensures { value_in result ≡ formula_of s.now }
{
    match sum(s, 0) {
        Some(all) if all.next == s.len() => all.part,
        _ => Err(Refusal::NotASum),
    }
}

#[tactic(auto, unfolding(crate::specs::Formula::answered_of, crate::specs::Formula::expand_of))]
pub fn expand(s: &[u8]) -> Result<Expanded, Refusal>
    ensures { result ≡ expand_of s.now }
{
    Ok(answered(value(s)?))
}
