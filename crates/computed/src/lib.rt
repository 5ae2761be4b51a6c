// What the definitions give at chosen arguments, each picked so that a plausible mistake in the definition would give another value. No code.
// specs/Computed.antt has every value, and specs/Steps.antt, for all arguments, why two of the mistakes show in no answer; proofs/ has the proofs.
// It rests on every crate whose definitions it speaks of, and nothing rests on it.
#![tactic(auto)]
