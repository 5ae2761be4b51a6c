// The refusals of documents 01 and 02, and the number that the hall file prints and the C functions say for each: 0 is said where nothing is refused, and 16
// to 19 are to follow. The last two are of the C functions alone. It rests on nothing; every operation that refuses rests on it.
#![tactic(auto)]

ghost use Rattle.std.specs.Prelude.{◌≡◌};
ghost use Rattle.refusals.specs.Refusals.{number_of};

#[derive(Clone, Copy, PartialEq, Eq, Debug)]
pub enum Refusal {
    // 'some coefficient not finite, wherever it stands'; of a quadratic 'one of a, b, c', of a crank 'one of the five'.
    NotFinite = 1,
    // 'trimmed length 0 or 1'
    TooFew = 2,
    // 'trimmed length above 5'
    TooMany = 3,
    // 'nothing is being asked'
    NothingAsked = 4,
    // 'a number in the Rust's answer is not finite'; of a crank 'a quartic coefficient'.
    AnswerNotFinite = 5,
    // 'unknown mark'
    UnknownMark = 6,
    // 'bytes end inside the mark', 'no count byte', 'fewer bytes than the record needs'
    Cut = 7,
    // 'count above 32'
    CountTooLarge = 8,
    // 'over 65,536 bytes'
    FileTooLong = 9,
    // 'a number of the record is not finite'
    RecordNotFinite = 10,
    // 'R is not above 0'
    NoRadius = 11,
    // 'a coefficient made is not finite'
    MadeNotFinite = 12,
    // 'the text is not a sum'
    NotASum = 13,
    // 'some part of it has degree above 4 after zero terms are dropped'
    DegreeTooHigh = 14,
    // 'some coefficient of a part is above 2^53 in size'
    CoefficientTooLarge = 15,
    // The coefficients' bytes end inside a double.
    CutDouble = 20,
    // The text has more bytes than a record holds, 255.
    TextTooLong = 21,
}

impl From<Refusal> for u32 {
    ghost from_gives = { λ refusal number. number ≡ number_of refusal };

    fn from(refusal: Refusal) -> u32 {
        refusal as u32
    }
}
