// Directed graphs told by questions, and the one search over them. Places in lists are made from 16-bit numbers by
// `as usize`, in which nothing can be lost.
#![tactic(auto)]

pub mod ask;
mod chains;
pub mod fault;
pub mod reach;
