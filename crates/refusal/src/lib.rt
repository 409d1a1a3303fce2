// A refusal as it is reported: its number, and the gate or wire that it names.
#![tactic(auto)]

ghost use Rattle.std.specs.Prelude.{◌≡◌};

// By a rule of the project, the table of refusals has place 0 for a refusal that names no gate and no wire.
#[derive(Clone, Copy, PartialEq, Eq, Debug)]
pub struct Refusal {
    pub number: u16,
    pub place: usize,
}

impl Refusal {
    pub const fn new(number: u16, place: usize) -> Refusal
        ensures { result ≡ record { number = number; place = place } }
    {
        Refusal { number, place }
    }
}
