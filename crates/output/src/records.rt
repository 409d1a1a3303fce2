// A netlist settled into a lent list of wires, each in its place.
ghost use Rattle.std.specs.Prelude.{◌≡◌, length};
ghost use Rattle.output.specs.Records.{Settles};
ghost use Rattle.wiring.specs.Held.{HoldsWires};

use crate::fault::SettleFault;
use netlist::ask::Netlist;
use wiring::wire::Wire;

// All wires, each in its place.
fn put_wires<N: Netlist>(net: &N, list: &mut [Wire])
    requires { length list.old ≡ (N.meaning net.now).wires }
    ensures { HoldsWires (N.meaning net.now) list.new }
{
    for (k, wire) in list.iter_mut().enumerate() {
        *wire = Wire::of(net, k);
    }
}

// Writes the wires of a netlist into a list and answers how many they are; later records stay as they are.
pub fn settle<N: Netlist>(net: &N, list: &mut [Wire]) -> Result<usize, SettleFault>
    ensures { Settles (N.meaning net.now) list.old list.new result }
{
    let wires = net.wire_count();
    if list.len() < wires {
        return Err(SettleFault::ShortList);
    }
    put_wires(net, &mut list[..wires]);
    Ok(wires)
}
