//! Gathering the columns of a case.
ghost use Rattle.std.specs.Prelude.{◌≡◌, map, IfOk};
ghost use Rattle.case_columns.specs.declared.name.Named.{Named};
ghost use Rattle.case_columns.specs.Tables.{columns_in};

use books::part::Column;
use case_columns::table::Table;
use std::alloc::{AllocError, Global};

/// The columns of a table, without their names.
pub(crate) fn columns_of(heap: Global, table: &Table) -> Result<Vec<Column>, AllocError>
    ensures { IfOk result (λ v. v.items ≡ map (λ (c : Named). c.column) (columns_in table.now)) }
{
    table
        .as_slice()
        .iter()
        .map(|named| named.column)
        .collect(heap)
}
