// Why the engine refuses a table or a row.
ghost use Rattle.std.specs.Prelude.{Some};
ghost use Rattle.engine.specs.Messages.{message};

use std::error::Error;
use std::fmt;

#[derive(Clone, Copy, PartialEq, Eq, Debug)]
pub enum TableFault {
    // The table, its fixed gates and its lags are not fit for each other.
    Unfit,
    // A row is shorter than the table has wires.
    ShortRow,
}

impl fmt::Display for TableFault {
    ghost output = { λ f. Some (message f) };

    fn fmt<W: fmt::Write>(&self, f: &mut fmt::Formatter<W>) -> fmt::Result {
        f.write_str(match self {
            TableFault::Unfit => "the table is not fit",
            TableFault::ShortRow => "a row is shorter than the table has wires",
        })
    }
}

impl Error for TableFault {}
