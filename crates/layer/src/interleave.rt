// The interleaving of a netlist: all counts times a factor, so that as many totals take turns on one card.
ghost use Rattle.std.specs.Prelude.{IfOk, vec_len, MatchResult};
ghost use Rattle.layer.specs.Times.{Passes, Fails, Shows, ShowsPaths};
ghost use Rattle.layer.specs.Wires.{HasPins};
ghost use Rattle.wiring.specs.Wiring.{wiring_net};

use crate::fault::LayerFault;
use crate::scaled::Scaled;
use netlist::ask::Netlist;
use std::alloc::{AllocError, Global};
use wiring::owned::Wiring;
use wiring::told::deep_wire;

// Checks that a factor suits a netlist.
pub fn check<N: Netlist>(net: &N, factor: u32) -> Result<(), LayerFault>
    ensures { MatchResult result (λ _. Passes factor (N.meaning net.now)) (Fails factor (N.meaning net.now)) }
{
    if !(1..=15).contains(&factor) {
        return Err(LayerFault::BadFactor);
    }
    // A count times the factor is over 1,048,575 just where the count is over this quotient, rounded down.
    match deep_wire(net, 1_048_575 / factor) {
        Some(k) => Err(LayerFault::CountTooLarge(k)),
        None => Ok(()),
    }
}

// For each gate whether it is pinned.
fn pin_row<N: Netlist>(heap: Global, net: &N) -> Result<Vec<bool>, AllocError>
    ensures { IfOk result (λ v. HasPins (N.meaning net.now) (vec_len v) v.items) }
{
    (0..net.gate_count())
        .map(|gate| net.is_pinned(gate))
        .collect(heap)
}

// Shows a netlist with all counts times a factor. It never refuses: what the check refuses is shown as it is.
pub fn open<N: Netlist>(heap: Global, net: &N, factor: u32) -> Result<Wiring, AllocError>
    ensures shows { IfOk result (λ w. Shows factor (N.meaning net.now) (wiring_net w)) }
    ensures carries { IfOk result (λ w. ShowsPaths factor (N.meaning net.now) (wiring_net w)) }
{
    let shown = Scaled::new(net, factor);
    let pins = pin_row(heap, net)?;
    let wires = shown.wires(heap)?;
    Wiring::open(heap, pins, wires.as_slice())
}
