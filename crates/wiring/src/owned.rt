// A netlist in memory of its own: which gates are pinned, and the wires in order.
ghost use Rattle.std.specs.Prelude.{◌≤◌, vec_len};
ghost use Rattle.wiring.specs.Wires.{EndsWithin, CountsWithin, NoFreeRound};

use crate::wire::Wire;

pub(crate) mod make;
pub mod questions;

#[derive(Drop)]
pub struct Wiring {
    pins: Vec<bool>,
    wires: Vec<Wire>,
    ghost gates: { vec_len pins ≤ 1024 },
    ghost few: { vec_len wires ≤ 4096 },
    ghost within: { EndsWithin (vec_len pins) wires.items },
    ghost small: { CountsWithin 1048575 wires.items },
    ghost rounds: { NoFreeRound (vec_len pins) wires.items },
}
