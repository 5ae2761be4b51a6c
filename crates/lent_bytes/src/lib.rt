// Doubles in lent bytes, lowest byte first: read from them, and stored in them, all of an answer or none of it.
// `lists` has lists of roots as doubles. It rests on `refusals`, `float`, `text` and `roots`; the hall file and the C functions rest on it.
#![tactic(auto)]

ghost use Rattle.std.specs.Prelude.{◌≡◌, [], ◌++◌, ◌+◌, ◌-◌, ◌*◌, ◌≤◌, length, replicate};
ghost use Rattle.std.proofs.lemmas.List.Edits.{sets};
ghost use Rattle.refusals.specs.Refusals.{outcome_of, value_or};
ghost use Rattle.float.specs.Literals.{zero64};
ghost use Rattle.lent_bytes.specs.Bytes.{doubles_bytes, f64s_at, lacks_five, Answered, Stored};

use float::f64_at;
use refusals::Refusal;

pub mod lists;

// The k doubles from at on, at the start of an array of 32, zeros behind them.
// (Not doubles_at: k is read from the bytes, so it is no const argument, and there is no heap for a Vec.)
#[tactic(auto, using(crate::proofs::Doubles::f64s_none, crate::proofs::Doubles::f64s_next))]
pub fn f64s_at(s: &[u8], at: usize, k: usize) -> [f64; 32]
    requires { (k ≤ 32) × (at + 8 * k ≤ length s.now) }
    ensures { result ≡ f64s_at k s.now at ++ replicate (32 - k) zero64 }
{
    let mut xs = [0.0; 32];
    // (By place: a closure of each place would test 32 of them, where most records have few.)
    for i in 0..k {
        xs[i] = f64_at(s, at + 8 * i);
    }
    xs
}

// The N doubles from at on.
#[tactic(auto, using(float::proofs::Made::made_by, crate::proofs::Doubles::f64s_all))]
pub fn doubles_at<const N: usize>(s: &[u8], at: usize) -> [f64; N]
    requires { at + 8 * N ≤ length s.now }
    ensures { result ≡ f64s_at N s.now at }
{
    std::array::from_fn(|i| f64_at(s, at + 8 * i))
}

// Whether there are fewer than five doubles, or the degree d is above 4.
#[tactic(auto, unfolding(crate::specs::Bytes::lacks_five))]
pub fn lacks_five(a: &[u8], d: u64) -> bool
    ensures { result ≡ lacks_five a.now d }
{
    a.len() < 40 || 4 < d
}

// All of xs from the start of out on.
// (By place: of what is written through chunks_mut a proof knows no byte.)
#[tactic(auto, using(crate::proofs::Whole::stored_none, crate::proofs::Whole::stored_next, crate::proofs::Whole::stored_all))]
pub fn put_all(out: &mut [u8], xs: &[f64])
    requires { 8 * length xs.now ≤ length out.old }
    ensures { out.new ≡ sets out.old 0 (doubles_bytes xs.now) }
{
    for (i, x) in xs.iter().enumerate() {
        float::put_f64(out, 8 * i, *x);
    }
}

// The same where there is room for all of them, and nothing where not; how many bytes are stored.
pub fn store(out: &mut [u8], xs: &[f64]) -> u64
    ensures { Stored xs.now out.old result out.new }
{
    if out.len() / 8 < xs.len() {
        return 0;
    }
    put_all(out, xs);
    8 * xs.len() as u64
}

// The same for an answer that is refused where number is not 0: nothing is stored then, and the number is said.
#[inline(always)]
#[tactic(auto, using(crate::proofs::Whole::answered_as, crate::proofs::Whole::refused))]
pub fn answer_numbered(out: &mut [u8], number: u32, xs: &[f64]) -> u64
    ensures { Answered number xs.now out.old result out.new }
{
    if number == 0 {
        return store(out, xs);
    }
    number as u64
}

// The same for numbers, or the refusal that stands in their place. (In line, as above: numbers that were just made are not copied.)
#[inline(always)]
#[tactic(auto, using(crate::proofs::Whole::answered, crate::proofs::Whole::told_by))]
pub fn answer<const N: usize>(out: &mut [u8], answer: Result<[f64; N], Refusal>) -> u64
    ensures { Answered (outcome_of answer.entry) (value_or [] answer.entry) out.old result out.new }
{
    match answer {
        Ok(xs) => answer_numbered(out, 0, &xs),
        Err(refusal) => answer_numbered(out, u32::from(refusal), &[]),
    }
}
