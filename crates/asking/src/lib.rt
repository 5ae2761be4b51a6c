// A computation that asks yes-or-no questions about places, read by a function and by a list of replies; no code.
// It rests on nothing; the inquiries rest on it.
#![tactic(auto)]
