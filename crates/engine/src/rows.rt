// The engine's rows for a table: the counts under the present lags, the wire that holds each bundle's share, and the
// flow on each wire. They are local arrays, since the engine takes no allocator, and three rows and not one of structs:
// holders go by bundle, and the flows are copied out as a row. That a call keeps the table, or the counts, is a clause of
// the call, since it speaks of the rows before and after.
ghost use Rattle.engine.specs.Rows.{Holding};

use crate::table::Table;

#[derive(Drop)]
pub(crate) struct Rows<'a> {
    pub(crate) table: Table<'a>,
    pub(crate) depths: [u32; 4096],
    pub(crate) holders: [u16; 4096],
    pub(crate) flows: [u16; 4096],
    ghost holding: { Holding table.links.now depths holders flows },
}
