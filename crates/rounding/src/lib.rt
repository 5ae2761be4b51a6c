// Facts on operations that are rounded once: error bounds, exactness, the error of a sum, splitting, the exact product, a step of the compensated Horner rule.
// No code. specs/ has what statements of other crates cite: a whole number with a sign, 1 in units of 2^-1074, and what rounding does to a fraction. proofs/
// has the laws, from one rounding up. It rests on algebra; the proofs on nearest doubles and the polishing theorem rest on it.
#![tactic(auto)]
