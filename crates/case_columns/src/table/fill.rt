//! Building a table, record by record.
ghost use Rattle.std.specs.Prelude.{◌≡◌, []};
ghost use Rattle.case_columns.specs.Placed.{Low, Placed};
ghost use Rattle.case_columns.specs.Tables.{columns_in, begun};

use crate::name::Named;
use crate::table::Table;
use std::alloc::Global;

impl Table {
    /// A table with no columns.
    pub fn new(heap: Global) -> Table
        ensures columns { columns_in result ≡ [] }
        ensures begun { begun result ≡ 0 }
    {
        Table {
            named: Vec::new(heap),
            starts: Vec::new(heap),
        }
    }

    /// The table of columns, with the number of each record's first.
    pub(crate) fn of(named: Vec<Named>, starts: Vec<usize>) -> Table
        requires low { Low named.items starts.items }
        requires placed { Placed named.items starts.items }
        ensures { columns_in result ≡ named.items }
    {
        Table { named, starts }
    }
}
