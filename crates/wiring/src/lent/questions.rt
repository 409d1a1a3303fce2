// What a graph is asked, answered by a lent list of wires: the arcs are the wires, open where the count is 0.
ghost use Rattle.std.specs.Prelude.{◌≡◌};
ghost use Rattle.wiring.specs.Wiring.{wires_graph};

use crate::lent::Wires;
use crate::wire::arc_at;
use graph::ask::Graph;

impl Graph for Wires<'_> {
    ghost shape = { wires_graph };

    fn node_count(&self) -> usize {
        self.gates
    }

    fn arc_count(&self) -> usize {
        self.list.len()
    }

    fn arc(&self, a: usize) -> (usize, usize, bool) {
        arc_at(self.list, a)
    }
}
