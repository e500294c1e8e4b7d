//! What the clauses of a record need besides the record.
use case_columns::kinds::Kinds;

/// Where a record stands, and what its clauses need of the rest of the case.
#[derive(Clone, Copy)]
pub struct Setting {
    /// Where the records of each kind stand.
    pub kinds: Kinds,
    /// By how much the sides of some rows are widened.
    pub allowance: i32,
    /// The place of the record.
    pub place: usize,
}
