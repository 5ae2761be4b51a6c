// The lines of a file of records, as text.
ghost use Rattle.std.specs.Prelude.{◌≡◌, ◌+◌, ◌*◌, ◌^◌, ◌<◌, ◌≤◌, length};
ghost use Rattle.std.proofs.lemmas.List.Edits.{sets};
ghost use Rattle.text.specs.Written.{Written};
ghost use Rattle.leafcases.specs.Lines.{word_of, words_of, leaf_line_of, third_line_of, leaf_answer_of, number_at, leaf_record_of, lines_of, Told};

use angle::{Sine, ThirdAngle};
use text::Text;

// A word of a line behind the first.
#[derive(Clone, Copy)]
pub enum Word {
    Double(f64),
    Whole(i32),
}

// A blank and the word.
fn put_word(out: &mut Text, word: Word)
    requires { out.old.at < 2 ^ 32 }
    ensures written { Written out.old (word_of word) out.new }
    ensures upper_bound { out.new.at ≤ out.old.at + 17 }
{
    out.byte(b' ');
    match word {
        Word::Double(x) => out.hex(float::to_bits(x), 16),
        Word::Whole(k) => out.signed(k),
    }
}

fn put_words(out: &mut Text, words: &[Word])
    requires { (out.old.at < 2 ^ 31 + 9) × (length words.now ≤ 3) }
    ensures written { Written out.old (words_of words.now) out.new }
    ensures upper_bound { out.new.at ≤ out.old.at + 17 * length words.now }
{
    for word in words {
        put_word(out, *word);
    }
}

fn put_line(out: &mut Text, name: &[u8], words: &[Word])
    requires name_length { (out.old.at < 2 ^ 31) × (length name.now ≤ 8) }
    requires words_length { length words.now ≤ 3 }
    ensures written { Written out.old (leaf_line_of name.now words.now) out.new }
    ensures upper_bound { out.new.at ≤ out.old.at + 60 }
{
    out.bytes(name);
    put_words(out, words);
    out.byte(b'\n');
}

// The line of a third angle: c, and s by the mode.
fn put_third(out: &mut Text, name: &[u8], sine: Sine, x: f64)
    requires { (out.old.at < 2 ^ 31) × (length name.now ≤ 8) }
    ensures written { Written out.old (third_line_of name.now sine x) out.new }
    ensures upper_bound { out.new.at ≤ out.old.at + 60 }
{
    let ThirdAngle { cos, sin } = angle::third_angle(sine, x);
    let words = [Word::Double(x), Word::Double(cos), Word::Double(sin)];
    put_line(out, name, &words);
}

// The line of a record by its letter, and whether a leaf has the letter.
#[tactic(auto, unfolding(crate::specs::Lines::leaf_answer_of))]
fn put_answer(out: &mut Text, letter: u8, x: f64, k: i32) -> bool
    requires { out.old.at < 2 ^ 31 }
    ensures { Told out.old (leaf_answer_of letter x k) out.new result }
{
    let asked = Word::Double(x);
    let scaled = Word::Whole(k);
    match letter {
        b's' => put_line(out, b"sqrt", &[asked, Word::Double(sqrt::sqrt(x))]),
        b'c' => put_line(out, b"cbrt", &[asked, Word::Double(cbrt::cbrt(x))]),
        b'a' => put_third(out, b"third", Sine::OfRounded, x),
        b'b' => put_third(out, b"exact", Sine::OfExact, x),
        b'l' => put_line(out, b"log2", &[asked, Word::Double(log2::log2_grid(x))]),
        b'd' => put_line(
            out,
            b"ldexp",
            &[asked, scaled, Word::Double(ldexp::ldexp(x, k))],
        ),
        b'e' => put_line(out, b"exponent", &[asked, Word::Whole(decode::exponent(x))]),
        b'p' => put_line(out, b"pow2", &[scaled, Word::Double(ldexp::pow2_or_nan(k))]),
        _ => return false,
    }
    true
}

// k of the record at `at`: its size, the last four of the eight bytes from at + 6 on, and before it its sign.
#[tactic(auto, unfolding(crate::specs::Lines::number_at, crate::specs::Lines::signed_by))]
fn number_at(s: &[u8], at: usize) -> Option<i32>
    requires { at + 14 ≤ length s.now }
    ensures { result ≡ number_at s.now at }
{
    let size = i32::try_from(float::u64_at(s, at + 6) / 0x1_0000_0000).ok()?;
    match s[at + 9] {
        b'+' => Some(size),
        b'-' => Some(-size),
        _ => None,
    }
}

// The line of the record at `at`, and whether one stands there. (By its place, as the definition: of a part that `chunks` gives each number read would need
// a lemma that moves it back to its place in s.)
#[tactic(auto, unfolding(crate::specs::Lines::leaf_record_of, crate::specs::Lines::answer_with))]
fn put_record(out: &mut Text, s: &[u8], at: usize) -> bool
    requires { (at ≤ length s.now) × (out.old.at < 2 ^ 31) }
    ensures { Told out.old (leaf_record_of s.now at) out.new result }
{
    if s.len() - at < 14 {
        return false;
    }
    match number_at(s, at) {
        Some(k) => put_answer(out, s[at], float::f64_at(s, at + 1), k),
        None => false,
    }
}

// The lines of the records in s, the last of them that of a bad one.
fn put_records(out: &mut Text, s: &[u8])
    requires { (length s.now ≤ 28001) × (out.old.at ≡ 0) }
    ensures written { Written out.old (lines_of s.now) out.new }
    ensures upper_bound { out.new.at ≤ 120060 }
{
    for at in (0..s.len()).step_by(14) {
        if !put_record(out, s, at) {
            out.bytes(b"bad record\n");
            return;
        }
    }
}

// The same, stored from the start of out on; how long they are.
pub fn put_lines(out: &mut [u8], s: &[u8]) -> usize
    requires { length s.now ≤ 28001 }
    ensures written { (out.new ≡ sets out.old 0 (lines_of s.now)) × (result ≡ length (lines_of s.now)) }
    ensures upper_bound { result ≤ 120060 }
{
    let mut text = Text { out, at: 0 };
    put_records(&mut text, s);
    text.at
}
