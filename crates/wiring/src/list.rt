// A list of wires lent by the caller, as a netlist: its check, and its opening. By a rule of the project such a list
// comes with its sizes, the numbers of gates and of pins, beside it.
ghost use Rattle.std.specs.Prelude.{IfOk, MatchResult};
ghost use Rattle.wiring.specs.List.{Passes, Fails, Opens};
ghost use Rattle.wiring.specs.Wiring.{wiring_net};

use crate::check::check_up_to;
use crate::fault::CheckFault;
use crate::owned::Wiring;
use crate::owned::make::pin_row;
use crate::wire::Wire;
use std::alloc::{AllocError, Global};

// Checks a list of wires between so many gates, of which the first so many are pinned.
pub fn check(gates: usize, pins: usize, wires: &[Wire]) -> Result<(), CheckFault>
    ensures { MatchResult result (λ _. Passes 1048575 gates pins wires.now) (Fails 1048575 gates pins wires.now) }
{
    check_up_to(1_048_575, gates, pins, wires)
}

// Opens such a list as a netlist. It never refuses: what the check refuses opens as the netlist without gates.
pub fn open(heap: Global, gates: usize, pins: usize, wires: &[Wire]) -> Result<Wiring, AllocError>
    ensures { IfOk result (λ w. Opens gates pins wires.now (wiring_net w)) }
{
    match check(gates, pins, wires) {
        Ok(()) => {
            let row = pin_row(heap, gates, pins)?;
            Wiring::new(heap, row, wires)
        }
        Err(_) => Ok(Wiring::empty(heap)),
    }
}
