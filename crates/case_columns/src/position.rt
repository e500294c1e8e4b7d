//! Where a record stands in a case.
ghost use Rattle.case_columns.specs.Kinds.{Few};

use crate::kinds::Kinds;

/// The place of a record, and where the records of each kind stand.
#[derive(Clone, Copy)]
pub(crate) struct Position {
    pub(crate) kinds: Kinds,
    pub(crate) place: usize,
    ghost few: { Few kinds },
}
