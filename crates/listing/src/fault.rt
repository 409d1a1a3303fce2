// Why a run gives no listing.
ghost use Rattle.std.specs.Prelude.{◌≡◌};
ghost use Rattle.listing.specs.Refusals.{refusal};
ghost use Rattle.listing.specs.declared.fault.RunFault.TheVariants.{Drawing, Memory};

use refusal::Refusal;
use std::alloc::AllocError;
use wiring::fault::CheckFault;

#[derive(Clone, Copy, PartialEq, Eq, Debug)]
pub enum RunFault {
    // The check refused the drawing.
    Drawing(CheckFault),
    // There was no memory.
    Memory,
}

impl RunFault {
    // The refusal as which the fault is reported; there is none for want of memory.
    pub fn refusal(self) -> Option<Refusal>
        ensures { result ≡ refusal self }
    {
        match self {
            RunFault::Drawing(_) => Some(Refusal::new(45, 0)),
            RunFault::Memory => None,
        }
    }
}

impl From<CheckFault> for RunFault {
    ghost from_gives = { λ f r. r ≡ Drawing f };

    fn from(fault: CheckFault) -> RunFault {
        RunFault::Drawing(fault)
    }
}

impl From<AllocError> for RunFault {
    ghost from_gives = { λ _ r. r ≡ Memory };

    fn from(_fault: AllocError) -> RunFault {
        RunFault::Memory
    }
}
