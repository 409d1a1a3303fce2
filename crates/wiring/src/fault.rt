// Why the check of a list of wires, or of a file that holds one, refuses.
ghost use Rattle.std.specs.Prelude.{◌≡◌};
ghost use Rattle.wiring.specs.Refusals.{refusal};

use refusal::Refusal;

// Where a case holds a number, it is the lowest wire at fault.
#[derive(Clone, Copy, PartialEq, Eq, Debug)]
pub enum CheckFault {
    // The file ends before its three sizes do.
    ShortFile,
    // Over 1,024 gates, over 4,096 wires, or more pins than gates.
    TooLarge,
    // The file's length is not that of so many wires.
    WrongLength,
    // An end of the wire is no gate.
    NoGate(usize),
    // The wire's count is over the limit.
    CountTooLarge(usize),
    // The wire lies on a round of wires without a register.
    FreeRound(usize),
}

impl From<CheckFault> for Refusal {
    ghost from_gives = { λ f r. r ≡ refusal f };

    fn from(fault: CheckFault) -> Refusal {
        match fault {
            CheckFault::ShortFile => Refusal::new(11, 0),
            CheckFault::TooLarge => Refusal::new(12, 0),
            CheckFault::WrongLength => Refusal::new(13, 0),
            CheckFault::NoGate(wire) => Refusal::new(14, wire),
            CheckFault::CountTooLarge(wire) => Refusal::new(15, wire),
            CheckFault::FreeRound(wire) => Refusal::new(16, wire),
        }
    }
}
