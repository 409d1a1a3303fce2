// One unit of surplus carried to a gate, along the arcs by which a search came to it.
ghost use Rattle.std.specs.Prelude.{◌≡◌, ℕ, ◌*◌, ◌<◌, length, MatchBool, slice_index};
ghost use Rattle.engine.specs.Carried.{Carried};
ghost use Rattle.engine.specs.Hops.{LastArc, Hops, HopsTo};
ghost use Rattle.engine.specs.OfRows.{leftover_of, rows_graph};
ghost use Rattle.engine.specs.Stepped.{Stepped};

use crate::leftover::Leftover;
use crate::moves::move_at;
use crate::rows::Rows;
use graph::ask::Graph;
use retiming::way::Way;

// Where a search came to: a mark of 1 for each gate, and over how many arcs. Two arrays, since
// the search is lent two rows, and the engine takes no allocator.
#[derive(Drop)]
pub(crate) struct Trail {
    pub(crate) marks: [u8; 1024],
    pub(crate) hops: [u16; 1024],
}

impl Trail {
    // Whether an arc is open and leads into a gate from a marked gate one hop lower.
    fn is_last_arc(&self, graph: &Leftover<'_, '_>, v: usize, a: usize) -> bool
        requires gate { v < graph.now.rows.now.table.gates }
        requires arc { a < 3 * length graph.now.rows.now.table.links.now }
        ensures { MatchBool result (LastArc (leftover_of graph.now) self.now.marks self.now.hops v a) (LastArc (leftover_of graph.now) self.now.marks self.now.hops v a → ⊥) }
    {
        let (from, to, open) = graph.arc(a);
        open && to == v
            && self.marks[from] == 1
            && self.hops[v] as usize == self.hops[from] as usize + 1
    }

    // Such an arc, where there is one.
    fn last_arc(&self, graph: &Leftover<'_, '_>, v: usize) -> usize
        requires gate { v < graph.now.rows.now.table.gates }
        requires some { (a : ℕ) × LastArc (leftover_of graph.now) self.now.marks self.now.hops v a }
        ensures { LastArc (leftover_of graph.now) self.now.marks self.now.hops v result }
    {
        (0..graph.arc_count())
            .find(|a| self.is_last_arc(graph, v, *a))
            .unwrap()
    }
}

impl Rows<'_> {
    // Carries one unit to a gate above hop 0 from a gate one hop lower, which is the answer.
    fn step_back(&mut self, way: Way, trail: &Trail, v: usize) -> usize
        requires gate { v < self.old.table.gates }
        requires mark { slice_index trail.now.marks v ≡ 1 }
        requires above { 0 < slice_index trail.now.hops v }
        requires stands { HopsTo (slice_index trail.now.hops v) (rows_graph way self.old) trail.now.marks trail.now.hops }
        ensures table { self.new.table ≡ self.old.table }
        ensures depths { self.new.depths ≡ self.old.depths }
        ensures stepped { Stepped way self.old.table.gates self.old.table.links.now self.old.depths trail.now.marks trail.now.hops v result self.old.holders self.old.flows self.new.holders self.new.flows }
    {
        let graph = Leftover { way, rows: self };
        let wires = self.table.links.len();
        let a = trail.last_arc(&graph, v);
        let (from, _, _) = graph.arc(a);
        self.make(move_at(wires, a));
        from
    }

    // Carries one unit to a marked gate from a gate at hop 0, which is the answer.
    pub(crate) fn carry(&mut self, way: Way, trail: &Trail, target: usize) -> usize
        requires gate { target < self.old.table.gates }
        requires mark { slice_index trail.now.marks target ≡ 1 }
        requires stands { Hops (rows_graph way self.old) trail.now.marks trail.now.hops }
        ensures table { self.new.table ≡ self.old.table }
        ensures depths { self.new.depths ≡ self.old.depths }
        ensures gate { result < self.old.table.gates }
        ensures mark { slice_index trail.now.marks result ≡ 1 }
        ensures start { slice_index trail.now.hops result ≡ 0 }
        ensures carried { Carried way self.old.table.gates self.old.table.links.now self.old.holders self.old.flows self.new.holders self.new.flows result target }
    {
        let mut v = target;
        // No count: it goes from gate to gate.
        while trail.hops[v] > 0 {
            v = self.step_back(way, trail, v);
        }
        v
    }
}
