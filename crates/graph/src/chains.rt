// The arcs that leave each node of a graph as a chain, the latest first.
ghost use Rattle.std.specs.Prelude.{◌≡◌, ◌<◌, ◌≤◌, slice_index};
ghost use Rattle.std.proofs.Props.{props};
ghost use Rattle.graph.specs.Chains.{link_of, Linked};

use crate::ask::Graph;

// Where a node's chain begins, and what comes after each arc: one more than an arc, or 0 where the chain ends. Each search
// clears these rows, and an `Option<u16>` takes twice the bytes; so they hold numbers, and the calls below tell options.
// Arrays, since the search takes no allocator.
#[derive(Drop)]
pub(crate) struct Chains {
    first: [u16; 8192],
    next: [u16; 32768],
}

impl Chains {
    pub(crate) fn of<G: Graph>(graph: &G) -> Self
        requires few { (G.shape graph.now).nodes ≤ 8192 }
        ensures { Linked (G.shape graph.now) (G.shape graph.now).arcs result }
    {
        let mut chains = Chains {
            first: [0; 8192],
            next: [0; 32768],
        };
        // By number, since that is how a graph is asked.
        for arc in 0..graph.arc_count() {
            let (from, _, _) = graph.arc(arc);
            chains.next[arc] = chains.first[from];
            chains.first[from] = arc as u16 + 1;
        }
        chains
    }

    // The latest arc that leaves a node.
    pub(crate) fn latest(&self, node: usize) -> Option<u16>
        requires { node < 8192 }
        ensures { result ≡ link_of (slice_index self.now.first node) }
    {
        self.first[node].checked_sub(1)
    }

    // The latest arc before one that leaves the same node.
    pub(crate) fn before(&self, arc: usize) -> Option<u16>
        requires { arc < 32768 }
        ensures { result ≡ link_of (slice_index self.now.next arc) }
    {
        self.next[arc].checked_sub(1)
    }
}

// A graph beside the chains of its arcs, which are lent, so that no array is copied.
#[derive(Drop)]
pub(crate) struct Arcs<'a, G: Graph> {
    pub(crate) graph: &'a G,
    pub(crate) chains: &'a Chains,
    ghost linked: { Linked (G.shape graph.now) (G.shape graph.now).arcs chains.now } by { Prim.hlevel props },
}
