// What the program prints for a drawing.
#![tactic(auto)]

pub mod fault;
pub mod lines;
pub mod run;
