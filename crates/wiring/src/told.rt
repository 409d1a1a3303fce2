// Wires as a netlist tells them: each as a record, and the lowest whose count is over a limit.
ghost use Rattle.std.specs.Prelude.{◌≡◌};
ghost use Rattle.wiring.specs.Check.{Finds, Deep};
ghost use Rattle.wiring.specs.Held.{wire_of};

use crate::wire::Wire;
use netlist::ask::Netlist;

impl Wire {
    // Wire k of a netlist. Past the last wire all three numbers are 0.
    pub fn of<N: Netlist>(net: &N, k: usize) -> Wire
        ensures { result ≡ wire_of (N.meaning net.now) k }
    {
        let (driver, driven, count) = net.wire(k);
        Wire {
            driver: driver as u16,
            driven: driven as u16,
            count,
        }
    }
}

// The lowest wire of a netlist whose count is over the limit.
pub fn deep_wire<N: Netlist>(net: &N, limit: u32) -> Option<usize>
    ensures { Finds (N.meaning net.now).wires (Deep limit (N.meaning net.now)) result }
{
    (0..net.wire_count()).find(|k| net.wire(*k).2 > limit)
}
