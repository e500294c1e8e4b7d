//! The columns and rows of a case.
ghost use Rattle.std.specs.Prelude.{◌≡◌, map, IfOk};
ghost use Rattle.case_fields.specs.Meant.{meant};
ghost use Rattle.case_columns.specs.Columns.{columns};
ghost use Rattle.case_columns.specs.Tables.{columns_in};
ghost use Rattle.clauses.specs.Rows.{row_of};
ghost use Rattle.clauses.specs.Stored.{rows_in, IsRefused};
ghost use Rattle.clauses.specs.Clauses.{clauses};

use crate::build::rows_of;
use crate::error::ClauseError;
use case_columns::build::table_of;
use case_columns::table::Table;
use case_fields::record::CaseRecord;
use std::alloc::Global;
use stored_book::row::StoredRow;

/// The columns and rows of a case.
#[derive(Drop)]
pub struct CaseLists {
    pub table: Table,
    pub rows: Vec<StoredRow>,
}

/// The columns of a case, and its rows over them.
pub fn lists_of(heap: Global, records: &[CaseRecord<'_>]) -> Result<CaseLists, ClauseError>
    ensures columns { IfOk result (λ l. columns_in l.table ≡ columns (map meant records.now)) }
    ensures rows { IfOk result (λ l. rows_in l.rows ≡ map (row_of (columns (map meant records.now))) (clauses (map meant records.now))) }
    ensures refused { IsRefused (columns (map meant records.now)) (clauses (map meant records.now)) result }
{
    let table = table_of(heap, records)?;
    let rows = rows_of(heap, records, &table)?;
    Ok(CaseLists { table, rows })
}
