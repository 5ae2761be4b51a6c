// The entry points and the hall file as C functions on numbers and byte slices, under the contracts of what they pass on to. `rt lib pongewaru` makes
// of them the archive that a controller links; include/pongewaru.h declares them. No C function here requires anything.
// It rests on the crates whose functions it hands out, on `lent_bytes` and on `lent_coefficients`; nothing rests on it.
#![tactic(auto)]

// The number of the mode that a function without `sine` uses; the functions `.._by` are told it.
const SINE_OF_EXACT: u32 = 0;

pub mod contacts;
pub mod cranks;
pub mod files;
pub mod formulas;
pub mod inquiries;
pub mod lists;
pub mod quadratics;
