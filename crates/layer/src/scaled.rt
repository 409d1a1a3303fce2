// A netlist beside the factor that its counts are shown with: a factor that its check accepts.
ghost use Rattle.std.specs.Prelude.{◌≡◌, IfOk, vec_len};
ghost use Rattle.layer.specs.Times.{times, Factor, Chosen};
ghost use Rattle.layer.specs.Wires.{HasWires};
ghost use Rattle.wiring.specs.Check.{NoneBelow, Deep};
ghost use Rattle.wiring.specs.Held.{wire_of};

use crate::interleave::check;
use netlist::ask::Netlist;
use std::alloc::{AllocError, Global};
use wiring::wire::Wire;

#[derive(Drop)]
pub(crate) struct Scaled<'a, N: Netlist> {
    net: &'a N,
    factor: u32,
    ghost range: { Factor factor },
    ghost counts: { NoneBelow (N.meaning net.now).wires (Deep 1048575 (times factor (N.meaning net.now))) },
}

impl<'a, N: Netlist> Scaled<'a, N> {
    // With the factor itself where the check accepts it, and with 1 where it does not.
    pub(crate) fn new(net: &'a N, factor: u32) -> Scaled<'a, N>
        ensures net { result.net.now ≡ net.now }
        ensures factor { Chosen factor (N.meaning net.now) result.factor }
    {
        match check(net, factor) {
            Ok(()) => Scaled { net, factor },
            Err(_) => Scaled { net, factor: 1 },
        }
    }

    // Wire k, with its count times the factor.
    fn wire(&self, k: usize) -> Wire
        ensures { result ≡ wire_of (times self.now.factor (N.meaning self.now.net.now)) k }
    {
        let wire = Wire::of(self.net, k);
        Wire {
            count: self.factor * wire.count,
            ..wire
        }
    }

    // All wires in order, with their counts times the factor.
    pub(crate) fn wires(&self, heap: Global) -> Result<Vec<Wire>, AllocError>
        ensures { IfOk result (λ v. HasWires (times self.now.factor (N.meaning self.now.net.now)) (vec_len v) v.items) }
    {
        (0..self.net.wire_count())
            .map(|k| self.wire(k))
            .collect(heap)
    }
}
