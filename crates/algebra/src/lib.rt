// Proof tools for nonlinear arithmetic over ℕ and ℤ: ring identities and inequalities by computation. No code.
// It rests on the library alone; crates with proofs on products of unknowns rest on it.
#![tactic(auto)]
