// Layers that show a netlist with other counts: the interleaving, for totals that take turns on one card.
#![tactic(auto)]

pub mod fault;
pub mod interleave;
mod scaled;
