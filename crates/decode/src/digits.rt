// The digits of a double.
ghost use Rattle.std.specs.Prelude.{◌^◌, ◌≤◌, ◌<◌};

// w * 2^k / 2^52 units of 2^-1074, where w has 53 digits.
#[derive(Clone, Copy)]
pub struct Digits {
    pub w: u64,
    pub k: u64,
    pub ghost led: { 2 ^ 52 ≤ w },
    pub ghost short: { w < 2 ^ 53 },
    pub ghost reach: { k < 2098 },
}
