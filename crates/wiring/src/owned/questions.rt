// What a netlist is asked, answered from memory.
ghost use Rattle.netlist.specs.Net.{graph_of};
ghost use Rattle.wiring.specs.Wiring.{wiring_net};
ghost use Rattle.wiring.specs.Laws.{few_gates_hold, few_wires_hold, drivers_within, drivens_within, counts_within, no_free_round, none_past_wires, none_past_gates};

use crate::owned::Wiring;
use crate::wire::{arc_at, wire_at};
use graph::ask::Graph;
use netlist::ask::Netlist;

impl Graph for Wiring {
    ghost shape = { λ w. graph_of (wiring_net w) };

    fn node_count(&self) -> usize {
        self.pins.len()
    }

    fn arc_count(&self) -> usize {
        self.wires.len()
    }

    fn arc(&self, a: usize) -> (usize, usize, bool) {
        arc_at(&self.wires, a)
    }
}

impl Netlist for Wiring {
    ghost meaning = { wiring_net };

    ghost few_gates = { few_gates_hold };

    ghost few_wires = { few_wires_hold };

    ghost drivers = { drivers_within };

    ghost drivens = { drivens_within };

    ghost counts = { counts_within };

    ghost rounds = { no_free_round };

    ghost past_wires = { none_past_wires };

    ghost past_gates = { none_past_gates };

    fn gate_count(&self) -> usize {
        self.pins.len()
    }

    fn wire_count(&self) -> usize {
        self.wires.len()
    }

    fn is_pinned(&self, gate: usize) -> bool {
        self.pins.get(gate).copied().unwrap_or(false)
    }

    fn wire(&self, k: usize) -> (usize, usize, u32) {
        wire_at(&self.wires, k)
    }
}
