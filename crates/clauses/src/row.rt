//! The row of a clause, by the sides that it has.
ghost use Rattle.clauses.specs.Settings.{Small};

use crate::error::ClauseError;
use crate::setting::Setting;
use crate::sum::Item;
use crate::walk::terms_of;
use case_columns::table::Table;
use std::alloc::Global;
use stored_book::row::StoredRow;

/// What the rows of a record's clauses are made from: the columns of the case, and the record's setting.
#[derive(Clone, Copy)]
pub(crate) struct Clauses<'a> {
    pub(crate) heap: Global,
    pub(crate) table: &'a Table,
    pub(crate) setting: Setting,
    ghost small: { Small setting },
}

impl Clauses<'_> {
    ghost use Rattle.std.specs.Prelude.{◌≡◌, pos, neg_ℤ, ◌≤ℤ◌};
    ghost use Rattle.case_columns.specs.Tables.{columns_in};
    ghost use Rattle.clauses.specs.Rows.{equal as equal_to, about as about_at, at_least, at_most};
    ghost use Rattle.clauses.specs.Stored.{Makes};

    /// The row of a sum between two sides.
    fn row(
        self,
        code: u8,
        lower: Option<i64>,
        upper: Option<i64>,
        items: &[Item],
    ) -> Result<StoredRow, ClauseError>
        ensures { Makes (columns_in self.entry.table.now) (record { code = code; lower = lower; upper = upper; sum = items.now }) result }
    {
        let terms = terms_of(self.heap, self.table, items)?;
        Ok(StoredRow {
            code,
            lower,
            upper,
            terms,
        })
    }

    /// The row of a sum that equals a number.
    pub(crate) fn equal(self, code: u8, side: i64, items: &[Item]) -> Result<StoredRow, ClauseError>
        ensures { Makes (columns_in self.entry.table.now) (equal_to code side items.now) result }
    {
        self.row(code, Some(side), Some(side), items)
    }

    /// The row of a sum that is at most a number.
    pub(crate) fn at_most(
        self,
        code: u8,
        side: i64,
        items: &[Item],
    ) -> Result<StoredRow, ClauseError>
        ensures { Makes (columns_in self.entry.table.now) (at_most code side items.now) result }
    {
        self.row(code, None, Some(side), items)
    }

    /// The row of a sum that is at least a number.
    pub(crate) fn at_least(
        self,
        code: u8,
        side: i64,
        items: &[Item],
    ) -> Result<StoredRow, ClauseError>
        ensures { Makes (columns_in self.entry.table.now) (at_least code side items.now) result }
    {
        self.row(code, Some(side), None, items)
    }

    /// The row of a sum that equals a number, widened down and up by the allowance.
    pub(crate) fn about(self, code: u8, side: i64, items: &[Item]) -> Result<StoredRow, ClauseError>
        requires { (neg_ℤ (pos 4611686018427387904) ≤ℤ side) × (side ≤ℤ pos 4611686018427387904) }
        ensures { Makes (columns_in self.entry.table.now) (about_at code self.entry.setting.allowance side items.now) result }
    {
        let allowance = i64::from(self.setting.allowance);
        self.row(code, Some(side - allowance), Some(side + allowance), items)
    }
}
