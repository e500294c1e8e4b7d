//! The named columns of a case, and where each record's stand.
ghost use Rattle.case_columns.specs.Placed.{Low, Placed};

use crate::name::Named;

/// The named columns of a case, in file order.
#[derive(Drop)]
pub struct Table {
    named: Vec<Named>,
    /// The number of each record's first column.
    // Kept: with it the first column of a record is found at once, so that rows are built in near linear time.
    starts: Vec<usize>,
    ghost low: { Low named.items starts.items },
    ghost placed: { Placed named.items starts.items },
}

pub mod fill;
pub mod find;
