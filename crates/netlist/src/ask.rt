// A netlist as its questions tell it: a graph whose nodes are gates and whose arcs are wires, with counts and pins.
ghost use Rattle.std.specs.Prelude.{◌≡◌, ℕ, ◌<◌, ◌≤◌, Bool, false};
ghost use Rattle.netlist.specs.Net.{Net, graph_of, OnFreeRound};

use graph::ask::Graph;

pub trait Netlist: Graph {
    // How many gates there are and which are pinned; how many wires, and of each its driver, driven gate and count.
    ghost meaning: { Self → Net };

    fn gate_count(&self) -> usize
        ensures { result ≡ (meaning self.now).gates };

    fn wire_count(&self) -> usize
        ensures { result ≡ (meaning self.now).wires };

    fn is_pinned(&self, gate: usize) -> bool
        ensures { result ≡ (meaning self.now).pinned gate };

    // Driver, driven gate and count of a wire: a tuple, by a rule of the project. The graph's arcs are the wires, open
    // where the count is 0.
    fn wire(&self, k: usize) -> (usize, usize, u32)
        ensures value { result ≡ ((meaning self.now).driver k, (meaning self.now).driven k, (meaning self.now).count k) }
        ensures arcs { Self.Graph.shape self.now ≡ graph_of (meaning self.now) };

    // The laws, which each implementation proves. They stand below the last question: above it they would be data.
    ghost few_gates: { (x : Self) → (meaning x).gates ≤ 1024 };

    ghost few_wires: { (x : Self) → (meaning x).wires ≤ 4096 };

    ghost drivers: { (x : Self) (k : ℕ) → k < (meaning x).wires → (meaning x).driver k < (meaning x).gates };

    ghost drivens: { (x : Self) (k : ℕ) → k < (meaning x).wires → (meaning x).driven k < (meaning x).gates };

    ghost counts: { (x : Self) (k : ℕ) → (meaning x).count k ≤ 1048575 };

    ghost rounds: { (x : Self) (k : ℕ) → OnFreeRound (meaning x) k → ⊥ };

    // Past the last wire all three numbers are 0, and past the last gate none is pinned.
    ghost past_wires: { (x : Self) (k : ℕ) → (meaning x).wires ≤ k → ((meaning x).driver k ≡ 0) × ((meaning x).driven k ≡ 0) × ((meaning x).count k ≡ 0) };

    ghost past_gates: { (x : Self) (g : ℕ) → (meaning x).gates ≤ g → (meaning x).pinned g ≡ false };
}
