// What is promised, as theorems about the definitions: the customer's demands and document 01's claims.
// specs/Demands.antt has every statement and specs/Table.antt the entries marked P; proofs/ has the proofs.
// It rests on every crate whose definitions it speaks of, and nothing rests on it.
#![tactic(auto)]

ghost use Rattle.demands.specs.Demands.{Demands};

// All of it holds: nothing is computed, and the contract is the promise itself, so that the check counts it as proved.
#[tactic(auto, using(crate::proofs::Proved::demands))]
pub fn promised()
    ensures { Demands }
{}
