// The polishing theorem: how far the value of `value_slope_compensated` is from the exact one, what that makes of a smaller value at a later place, and so what
// `polish` never loses. No code. specs/ has the exact value in whole numbers (P and M of demand 3) and the claims; proofs/ has the argument, from one product
// up. It rests on the definitions of `horner` and `polish`, and on `rounding`.
#![tactic(auto)]
