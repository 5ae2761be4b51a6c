// A value, and how many square systems were solved for it: request Seven of document 02. It rests on nothing; all that solves, or hands on what was solved,
// rests on it.
#![tactic(auto)]

ghost use Rattle.std.specs.Prelude.{◌≡◌};
ghost use Rattle.tally.specs.Tally.{tallied};

// The calls of `square::solve_square` that made the value, those that found no step too.
#[derive(Clone, Copy)]
pub struct Tallied<T> {
    pub value: T,
    pub systems: u32,
}

impl<T: Copy> Tallied<T> {
    // Another value for this one, with no system more.
    pub fn with<U: Copy>(self, value: U) -> Tallied<U>
        ensures { result ≡ tallied value self.systems }
    {
        let systems = self.systems;
        Tallied { value, systems }
    }
}
