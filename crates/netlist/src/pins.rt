// How many gates of a netlist are pinned.
ghost use Rattle.std.specs.Prelude.{◌≡◌};
ghost use Rattle.netlist.specs.Net.{pins};

use crate::ask::Netlist;

pub fn pin_count<N: Netlist>(net: &N) -> usize
    ensures { result ≡ pins (N.meaning net.now) }
{
    (0..net.gate_count())
        .filter(|gate| net.is_pinned(*gate))
        .count()
}
