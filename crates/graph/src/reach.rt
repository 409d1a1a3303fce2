// The search: which nodes open arcs lead to from given ones, and in how many arcs it came to each. Breadth first
// over chains of arcs that leave one node (Moore, "The shortest path through a maze"); time linear in nodes plus
// arcs, memory in local arrays.
ghost use Rattle.std.specs.Prelude.{◌≡◌, ℕ, ◌<◌, ◌≤◌, [], length, MatchResult, slice_index};
ghost use Rattle.arrayvec.specs.ArrayVec.{array_vec_len};
ghost use Rattle.graph.specs.Reach.{Searched, Refused};
ghost use Rattle.graph.specs.Trace.{Traced, Untraced};

use crate::ask::Graph;
use crate::chains::{Arcs, Chains};
use crate::fault::SearchFault;
use arrayvec::ArrayVec;

// Marks 1 every node to which open arcs lead from a node with a nonzero mark, such a node included, and 0
// every other node. Marks past the last node are kept. Answers how many nodes are marked. By a rule of the project the
// marks are a lent row of bytes, and so, for `trace`, are the hops a lent row.
pub fn search<G: Graph>(graph: &G, marks: &mut [u8]) -> Result<usize, SearchFault>
    ensures { MatchResult result (λ n. Searched (G.shape graph.now) marks.old marks.new n) (λ f. Refused (G.shape graph.now) marks.old marks.new f) }
{
    let nodes = graph.node_count();
    if marks.len() < nodes {
        return Err(SearchFault::ShortRow);
    }
    let mut hops = [0u16; 8192];
    Ok(traverse(graph, marks, &mut hops))
}

// The same search, which also leaves for each marked node how many arcs it took to reach it: 0 for a start,
// else one more than for a node that an open arc enters it from. Hops past the last node are kept.
pub fn trace<G: Graph>(graph: &G, marks: &mut [u8], hops: &mut [u16]) -> Result<usize, SearchFault>
    ensures { MatchResult result (λ n. Traced (G.shape graph.now) marks.old hops.old marks.new hops.new n) (λ f. Untraced (G.shape graph.now) marks.old hops.old marks.new hops.new f) }
{
    let nodes = graph.node_count();
    if marks.len() < nodes || hops.len() < nodes {
        return Err(SearchFault::ShortRow);
    }
    Ok(traverse(graph, marks, hops))
}

// Marks what is reached and leaves its hops, in rows that are long enough. Answers how many nodes are marked.
fn traverse<G: Graph>(graph: &G, marks: &mut [u8], hops: &mut [u16]) -> usize
    requires marks { (G.shape graph.now).nodes ≤ length marks.old }
    requires hops { (G.shape graph.now).nodes ≤ length hops.old }
    ensures { Traced (G.shape graph.now) marks.old hops.old marks.new hops.new result }
{
    let nodes = graph.node_count();
    let chains = &Chains::of(graph);
    let arcs = Arcs { graph, chains };
    let mut front = Front {
        nodes,
        marks,
        hops,
        queue: ArrayVec::new(),
    };
    front.start();
    front.spread(&arcs);
    front.queue.len()
}

// What the search has found so far: the rows of marks and hops, which may be longer than there are nodes, and the queue
// of the marked nodes. That a call keeps the rows themselves and their lengths is a clause of it: it speaks of two
// values. That the queue holds
// just those stands in clauses and in no ghost field: it is not so between the write of a mark and the push.
#[derive(Drop)]
struct Front<'a> {
    nodes: usize,
    marks: &'a mut [u8],
    hops: &'a mut [u16],
    queue: ArrayVec<u16, 8192>,
    ghost few: { nodes ≤ 8192 },
    ghost marks_long: { nodes ≤ length marks.now },
    ghost hops_long: { nodes ≤ length hops.now },
}

impl<'a> Front<'a> {
    ghost use Rattle.graph.specs.Frontier.{SameRows, Queued, Enqueued, Started, Grown, Left, Closed};

    // Queues each node that has a nonzero mark, with the hop 0.
    fn start(&mut self)
        requires empty { self.old.queue.items ≡ [] }
        ensures same { SameRows self.old self.new }
        ensures queued { Queued self.old.nodes self.new }
        ensures started { Started self.old.nodes self.old self.new }
    {
        // By number, since it writes the row that it reads.
        for v in 0..self.nodes {
            if self.marks[v] != 0 {
                self.enqueue(v, 0);
            }
        }
    }

    // Marks a node, puts it at the end of the queue and notes its hop.
    fn enqueue(&mut self, v: usize, hop: u16)
        requires node { v < self.old.nodes }
        requires room { array_vec_len self.old.queue < 8192 }
        ensures same { SameRows self.old self.new }
        ensures enqueued { Enqueued v hop self.old self.new }
    {
        self.marks[v] = 1;
        self.hops[v] = hop;
        self.queue.push(v as u16);
    }

    // Visits the queued nodes in turn, those that it queues itself included.
    fn spread<G: Graph>(&mut self, arcs: &Arcs<G>)
        requires nodes { self.old.nodes ≡ (G.shape arcs.now.graph.now).nodes }
        requires queued { Queued (G.shape arcs.now.graph.now).nodes self.old }
        ensures same { SameRows self.old self.new }
        ensures grown { Grown (G.shape arcs.now.graph.now) self.old self.new }
        ensures closed { Closed (G.shape arcs.now.graph.now) self.new.marks.now }
    {
        // The place is counted, since the queue grows while it is walked.
        let mut head = 0;
        while let Some(&v) = self.queue.get(head) {
            self.visit(arcs, usize::from(v));
            head += 1;
        }
    }

    // Queues each node without a mark that an open arc enters from v, with one hop more than v has.
    fn visit<G: Graph>(&mut self, arcs: &Arcs<G>, v: usize)
        requires node { v < (G.shape arcs.now.graph.now).nodes }
        requires nodes { self.old.nodes ≡ (G.shape arcs.now.graph.now).nodes }
        requires queued { Queued (G.shape arcs.now.graph.now).nodes self.old }
        requires marked { slice_index self.old.marks.now v ≡ 1 }
        ensures same { SameRows self.old self.new }
        ensures grown { Grown (G.shape arcs.now.graph.now) self.old self.new }
        ensures left { Left (G.shape arcs.now.graph.now) self.new.marks.now v }
    {
        let hop = self.hops[v] + 1;
        let mut link = arcs.chains.latest(v);
        while let Some(arc) = link {
            let (_, to, open) = arcs.graph.arc(arc as usize);
            if open && self.marks[to] == 0 {
                self.enqueue(to, hop);
            }
            link = arcs.chains.before(arc as usize);
        }
    }
}
