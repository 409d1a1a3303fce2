// A netlist in memory, made from a list of wires that has passed its check.
ghost use Rattle.std.specs.Prelude.{◌≡◌, ℕ, ◌<◌, ◌≤◌, Bool, false, length, IfOk, vec_len, nat_lt, slice_index_or};
ghost use Rattle.wiring.specs.Check.{WiresPass};
ghost use Rattle.wiring.specs.List.{no_gates, OpensPinned};
ghost use Rattle.wiring.specs.Wires.{wired};
ghost use Rattle.wiring.specs.Wiring.{wiring_net};

use crate::check::check_up_to;
use crate::owned::Wiring;
use crate::wire::Wire;
use std::alloc::{AllocError, Global};

// For each of so many gates whether it is below the pin number.
pub(crate) fn pin_row(heap: Global, gates: usize, pins: usize) -> Result<Vec<bool>, AllocError>
    ensures { IfOk result (λ v. (vec_len v ≡ gates) × ((g : ℕ) → g < gates → slice_index_or v.items g false ≡ nat_lt g pins)) }
{
    (0..gates).map(|g| g < pins).collect(heap)
}

impl Wiring {
    pub(crate) fn new(heap: Global, pins: Vec<bool>, wires: &[Wire]) -> Result<Wiring, AllocError>
        requires gates { vec_len pins ≤ 1024 }
        requires few { length wires.now ≤ 4096 }
        requires pass { WiresPass 1048575 (wired (vec_len pins) (λ g. slice_index_or pins.items g false) wires.now) }
        ensures { IfOk result (λ w. wiring_net w ≡ wired (vec_len pins) (λ g. slice_index_or pins.items g false) wires.now) }
    {
        let wires = Vec::from_slice(heap, wires)?;
        Ok(Wiring { pins, wires })
    }

    // The netlist without gates.
    pub fn empty(heap: Global) -> Wiring
        ensures { wiring_net result ≡ no_gates }
    {
        Wiring {
            pins: Vec::new(heap),
            wires: Vec::new(heap),
        }
    }

    // The netlist of a list of wires, with a pin or none for each gate. It never refuses: a list that has a fault
    // opens as the netlist without gates.
    pub fn open(heap: Global, pins: Vec<bool>, wires: &[Wire]) -> Result<Wiring, AllocError>
        ensures { IfOk result (λ w. OpensPinned (vec_len pins) (λ g. slice_index_or pins.items g false) wires.now (wiring_net w)) }
    {
        match check_up_to(1_048_575, pins.len(), 0, wires) {
            Ok(()) => Wiring::new(heap, pins, wires),
            Err(_) => Ok(Wiring::empty(heap)),
        }
    }
}
