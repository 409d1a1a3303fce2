// Lists of wires: their check, and netlists in memory that are opened from them. Places in lists are made from
// 16-bit numbers by `as usize`, in which nothing can be lost.
#![tactic(auto)]

pub mod check;
pub mod fault;
pub mod lent;
pub mod list;
pub mod owned;
pub mod told;
pub mod wire;
