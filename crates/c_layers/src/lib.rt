// Layers 2 to 5 as C functions on numbers and byte slices, under the contracts of what they pass on to: `rt lib c_layers` makes of them one of
// the archives that the test host links. No C function here requires anything. One file for each layer.
// It rests on the crates whose functions it hands out, and on `lent_bytes`; nothing rests on it.
#![tactic(auto, using(crate::proofs::Sizes::handed), unfolding(lent_bytes::specs::Bytes::unless, lent_bytes::specs::Bytes::whole))]

pub mod evaluation;
pub mod factoring;
pub mod scaling;
pub mod systems;
