// Netlists written out: into a lent list of wires, and as the file of a drawing.
#![tactic(auto)]

pub mod fault;
pub mod file;
pub mod records;
