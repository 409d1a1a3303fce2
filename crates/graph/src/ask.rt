// A directed graph as its questions tell it: numbered nodes, and numbered arcs that are open or shut.
// Asking changes nothing, and the same question has the same answer until the graph is changed.
ghost use Rattle.std.specs.Prelude.{◌≡◌, ℕ, ◌<◌, ◌≤◌, false};
ghost use Rattle.graph.specs.Digraph.{Digraph, Arc};

pub trait Graph {
    // How many nodes and arcs there are, and of each arc its ends and whether it is open.
    ghost shape: { Self → Digraph };

    fn node_count(&self) -> usize
        ensures value { result ≡ (shape self.now).nodes }
        ensures bound { result ≤ 8192 };

    fn arc_count(&self) -> usize
        ensures value { result ≡ (shape self.now).arcs }
        ensures bound { result ≤ 32768 };

    // From-node, to-node and whether the arc is open; past the last arc 0, 0 and shut. A tuple, by a rule of the project.
    fn arc(&self, a: usize) -> (usize, usize, bool)
        ensures within { a < (shape self.now).arcs → Arc (shape self.now) a result.0 result.1 result.2 }
        ensures past { (shape self.now).arcs ≤ a → result ≡ (0, 0, false) };
}
