// What a part is kept as.
ghost use Rattle.parts.specs.Kept.{Small};

// Coefficients of t^0 to t^4, none above 2^53 in size.
#[derive(Clone, Copy, PartialEq, Eq, Debug)]
pub struct Part {
    pub coeffs: [i64; 5],
    pub ghost sound: { Small coeffs },
}
