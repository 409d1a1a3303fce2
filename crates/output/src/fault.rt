// Why a netlist is not written out.
ghost use Rattle.std.specs.Prelude.{◌≡◌};
ghost use Rattle.output.specs.declared.fault.RewriteFault.TheVariants.{Memory, Write};
ghost use Rattle.output.specs.Refusals.{settle_refusal, write_refusal};

use refusal::Refusal;
use std::alloc::AllocError;

#[derive(Clone, Copy, PartialEq, Eq, Debug)]
pub enum SettleFault {
    // The list is shorter than the wires.
    ShortList,
}

impl From<SettleFault> for Refusal {
    ghost from_gives = { λ f r. r ≡ settle_refusal f };

    fn from(fault: SettleFault) -> Refusal {
        match fault {
            SettleFault::ShortList => Refusal::new(20, 0),
        }
    }
}

#[derive(Clone, Copy, PartialEq, Eq, Debug)]
pub enum WriteFault {
    // The row of bytes is shorter than the file.
    ShortRow,
    // The count of the wire is over 255; no lower wire has that fault.
    CountTooLarge(usize),
    // The gate is pinned, and some gate below it is not; no lower gate has that fault.
    LatePin(usize),
}

impl From<WriteFault> for Refusal {
    ghost from_gives = { λ f r. r ≡ write_refusal f };

    fn from(fault: WriteFault) -> Refusal {
        match fault {
            WriteFault::ShortRow => Refusal::new(17, 0),
            WriteFault::CountTooLarge(wire) => Refusal::new(18, wire),
            WriteFault::LatePin(gate) => Refusal::new(19, gate),
        }
    }
}

#[derive(Clone, Copy, PartialEq, Eq, Debug)]
pub enum RewriteFault {
    // There is no memory for the opened file.
    Memory,
    // The opened file is not written.
    Write(WriteFault),
}

impl From<AllocError> for RewriteFault {
    ghost from_gives = { λ _ r. r ≡ Memory };

    fn from(_e: AllocError) -> RewriteFault {
        RewriteFault::Memory
    }
}

impl From<WriteFault> for RewriteFault {
    ghost from_gives = { λ e r. r ≡ Write e };

    fn from(e: WriteFault) -> RewriteFault {
        RewriteFault::Write(e)
    }
}
