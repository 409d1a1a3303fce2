// A lent list of wires whose ends are gates, as a graph.
ghost use Rattle.std.specs.Prelude.{◌≤◌, length};
ghost use Rattle.wiring.specs.Wires.{EndsWithin};

use crate::wire::Wire;

pub mod questions;
mod rounds;

#[derive(Drop)]
pub struct Wires<'a> {
    pub(crate) gates: usize,
    pub(crate) list: &'a [Wire],
    ghost few: { gates ≤ 1024 },
    ghost short: { length list.now ≤ 4096 },
    ghost within: { EndsWithin gates list.now },
}
