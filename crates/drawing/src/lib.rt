// The drawing of a card as a file: its check, and its opening as a netlist.
#![tactic(auto)]

pub mod file;
mod parsed;
