// The moves that the rows leave for a unit of surplus, as a graph over the gates: an arc is open where its move can be
// made.
ghost use Rattle.std.specs.Prelude.{◌≡◌, ◌<◌, length};
ghost use Rattle.engine.specs.Leftover.{source, sink, possible};
ghost use Rattle.engine.specs.OfRows.{leftover_of};
ghost use Rattle.engine.specs.Moves.{wire_of};

use crate::moves::{Move, move_at};
use crate::rows::Rows;
use graph::ask::Graph;
use retiming::way::Way;

#[derive(Clone, Copy)]
pub(crate) struct Leftover<'r, 'a> {
    pub(crate) way: Way,
    pub(crate) rows: &'r Rows<'a>,
}

impl Rows<'_> {
    // The gate that a move takes its unit from, the gate that it brings it to, and whether it can be made: told as a
    // graph tells an arc.
    fn told(&self, m: Move) -> (usize, usize, bool)
        requires { wire_of m < length self.now.table.links.now }
        ensures takes { result.0 ≡ source self.now.table.links.now self.now.holders m }
        ensures brings { result.1 ≡ sink self.now.table.links.now m }
        ensures can { result.2 ≡ possible self.now.table.links.now self.now.depths self.now.holders self.now.flows m }
    {
        let links = self.table.links;
        match m {
            Move::More(k) => {
                let open = self.depths[k] == 0 && self.flows[k] < 4096;
                (links[k].driven as usize, links[k].driver as usize, open)
            }
            Move::Less(k) => {
                let open = self.flows[k] > 0;
                (links[k].driver as usize, links[k].driven as usize, open)
            }
            Move::Hand(k) => {
                let holder = self.holders[links[k].bundle as usize] as usize;
                let open = self.depths[k] == self.depths[holder];
                (
                    links[holder].driven as usize,
                    links[k].driven as usize,
                    open,
                )
            }
        }
    }
}

// The rows are bound first: a proof reads a field behind a lent field through a variable.
impl Graph for Leftover<'_, '_> {
    ghost shape = { leftover_of };

    fn node_count(&self) -> usize {
        let rows = self.rows;
        rows.table.gates
    }

    fn arc_count(&self) -> usize {
        let rows = self.rows;
        3 * rows.table.links.len()
    }

    fn arc(&self, a: usize) -> (usize, usize, bool) {
        let rows = self.rows;
        let wires = rows.table.links.len();
        if a >= 3 * wires {
            return (0, 0, false);
        }
        let (from, to, open) = rows.told(move_at(wires, a));
        match self.way {
            Way::Forward => (from, to, open),
            Way::Back => (to, from, open),
        }
    }
}
