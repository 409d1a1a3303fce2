// The engine on plain tables: fewest registers one way, nearest lags, and the witness that no fewer do. Places in lists
// are made from 16-bit numbers by `as usize`, in which nothing can be lost: an index reads better so than by `From`.
#![tactic(auto)]

pub(crate) mod begin;
pub mod calls;
pub(crate) mod check;
pub(crate) mod decide;
pub mod fault;
pub(crate) mod fewest;
pub(crate) mod leftover;
pub mod link;
pub(crate) mod moves;
pub(crate) mod outcome;
pub(crate) mod pick;
pub(crate) mod price;
pub(crate) mod round;
pub(crate) mod rows;
pub(crate) mod settle;
pub(crate) mod step;
pub(crate) mod table;
pub(crate) mod walk;
