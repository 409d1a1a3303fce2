// The lines of a listing: decimal numbers, one space apart, each line ended by byte 10.
ghost use Rattle.std.specs.Prelude.{◌≡◌, ◌++◌, IfOk, string_bytes};
ghost use Rattle.netlist.specs.Tally.{shared_sum};
ghost use Rattle.listing.specs.Lines.{refused_line, listing};

use netlist::ask::Netlist;
use netlist::pins::pin_count;
use netlist::registers::shared_tally;
use std::alloc::{AllocError, Global};

// The one line of a refused run, with its number.
pub fn refused(heap: Global, number: u16) -> Result<String, AllocError>
    ensures { IfOk result (λ s. string_bytes s ≡ refused_line number) }
{
    format!(in heap; "refused {number}\n")
}

// The lines of a netlist: its sizes, and the registers that it needs where all wires of a driver share.
pub fn describe<N: Netlist>(heap: Global, net: &N) -> Result<String, AllocError>
    ensures { IfOk result (λ s. string_bytes s ≡ listing (N.meaning net.now)) }
{
    let gates = net.gate_count();
    let pins = pin_count(net);
    let wires = net.wire_count();
    let needed = shared_tally(net);
    format!(in heap; "net {gates} {pins} {wires}\nregs {needed} {needed}\n")
}
