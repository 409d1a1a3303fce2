// One round: a unit of surplus is carried to where it is taken, or the gates that it can reach are stuck.
ghost use Rattle.std.specs.Prelude.{◌≡◌, ℕ, List};
ghost use Rattle.graph.specs.Trace.{Traced};
ghost use Rattle.engine.specs.OfRows.{rows_graph};
ghost use Rattle.engine.specs.Round.{Came};

use crate::leftover::Leftover;
use crate::outcome::Outcome;
use crate::price::Prices;
use crate::rows::Rows;
use crate::walk::Trail;
use graph::reach::trace;
use retiming::way::Way;

// The way comes beside the rows, since both ways are asked of one set of rows.
impl Rows<'_> {
    // Marks each gate to which open arcs lead from the marked gates, and leaves how many arcs it took.
    fn follow(&self, way: Way, trail: &mut Trail)
        ensures { (n : ℕ) × Traced (rows_graph way self.now) trail.old.marks trail.old.hops trail.new.marks trail.new.hops n }
    {
        // The rows are as long as there can be gates, so the search does not refuse.
        let _ = trace(
            &Leftover { way, rows: self },
            &mut trail.marks,
            &mut trail.hops,
        );
    }

    // Prices the gates, marks those with a surplus and what they reach, and carries one unit if a gate that takes it
    // is reached.
    pub(crate) fn round(&mut self, way: Way) -> Outcome
        ensures table { self.new.table ≡ self.old.table }
        ensures depths { self.new.depths ≡ self.old.depths }
        ensures came { Came way self.old.table.gates self.old.table.links.now self.old.table.fixed.now self.old.depths self.old.holders self.old.flows self.new.holders self.new.flows result }
    {
        let table = self.table;
        let mut prices = Prices {
            gains: [0; 1024],
            costs: [0; 1024],
        };
        self.price(&mut prices);
        let mut trail = Trail {
            marks: [0; 1024],
            hops: [0; 1024],
        };
        if !table.mark_seeds(way, &prices, &mut trail.marks) {
            return Outcome::Settled;
        }
        self.follow(way, &mut trail);
        match table.sink(way, &prices, &trail.marks) {
            None => Outcome::Stuck(trail.marks),
            Some(sink) => {
                self.carry(way, &trail, sink);
                Outcome::Carried
            }
        }
    }
}
