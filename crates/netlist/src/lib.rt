// Netlists told by questions, rules for sharing registers, and the tally of the registers that a netlist needs.
#![tactic(auto)]

pub mod ask;
pub mod pins;
pub mod registers;
pub mod rule;
