// The engine's table, checked: so many gates, the wires between them, and for each gate whether it is fixed. Its lists
// are the caller's.
ghost use Rattle.std.specs.Prelude.{◌≤◌, length};
ghost use Rattle.engine.specs.Table.{Tabled};

use crate::link::Link;

#[derive(Clone, Copy)]
pub(crate) struct Table<'a> {
    pub(crate) gates: usize,
    pub(crate) links: &'a [Link],
    pub(crate) fixed: &'a [bool],
    ghost tabled: { Tabled gates links.now },
    ghost fixed_long: { gates ≤ length fixed.now },
}
