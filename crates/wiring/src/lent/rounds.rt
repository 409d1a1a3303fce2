// Rounds of wires without a register, in arrays, since the check takes no allocator: by levels of gates where they can be found, and else by a search from each wire.
ghost use Rattle.std.specs.Prelude.{◌≡◌, ◌<◌, true, false, length, MatchBool};
ghost use Rattle.graph.specs.Reach.{Leads};
ghost use Rattle.netlist.specs.Net.{OnFreeRound};
ghost use Rattle.wiring.specs.Check.{Finds};
ghost use Rattle.wiring.specs.Levels.{Rises};
ghost use Rattle.wiring.specs.Wires.{wired, NoFreeRound};
ghost use Rattle.wiring.specs.Wiring.{wires_graph};

use crate::lent::Wires;
use graph::reach::search;

impl Wires<'_> {
    // Whether wires without a register lead from one gate to another.
    fn leads(&self, from: usize, to: usize) -> bool
        requires from_within { from < self.now.gates }
        requires to_within { to < self.now.gates }
        ensures { MatchBool result (Leads (wires_graph self.now) from to) (Leads (wires_graph self.now) from to → ⊥) }
    {
        let mut marks = [0u8; 1024];
        marks[from] = 1;
        let _ = search(self, &mut marks);
        marks[to] == 1
    }

    // Lifts the driven gate of each wire without a register above its driver. Answers whether a gate was lifted.
    fn lift(&self, levels: &mut [u16; 1024]) -> bool
        ensures { result ≡ false → Rises self.now.list.now levels.new }
    {
        let mut lifted = false;
        for wire in self.list {
            let level = levels[wire.driver as usize];
            if wire.count == 0 && levels[wire.driven as usize] <= level {
                levels[wire.driven as usize] = level.saturating_add(1);
                lifted = true;
            }
        }
        lifted
    }

    // Whether levels were found that rise along each wire without a register: then no round consists of such wires.
    // Most drawings have such levels after a few turns; where there is a round, no turn is the last.
    fn rises(&self) -> bool
        ensures { result ≡ true → NoFreeRound self.now.gates self.now.list.now }
    {
        let mut levels = [0u16; 1024];
        for _ in 0..=self.gates {
            if !self.lift(&mut levels) {
                return true;
            }
        }
        false
    }

    // The lowest wire that lies on a round of wires without a register.
    pub(crate) fn round_wire(&self) -> Option<usize>
        ensures { Finds (length self.now.list.now) (OnFreeRound (wired self.now.gates (λ _. false) self.now.list.now)) result }
    {
        if self.rises() {
            return None;
        }
        // By a rule of the project wires are tried from 0 upward in a labelled loop, which is left at the first on a round.
        let mut found = None;
        'wires: for (k, wire) in self.list.iter().enumerate() {
            if wire.count > 0 {
                continue 'wires;
            }
            if self.leads(wire.driven as usize, wire.driver as usize) {
                found = Some(k);
                break 'wires;
            }
        }
        found
    }
}
