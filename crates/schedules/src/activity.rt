//! The activities of the rows against their sides.
ghost use Rattle.std.specs.Prelude.{◌≡◌, pos, ◌*ℤ◌, slice_index_or};
ghost use Rattle.books.specs.Schedules.{activity as row_activity};
ghost use Rattle.books.specs.Walks.{terms_of};
ghost use Rattle.certificates.specs.Values.{quantities};
ghost use Rattle.certificates.specs.Checks.{within_sides, first_broken_row, passed};

use crate::limit::Within;
use crate::product::wide_product;
use books::book::Book;
use books::part::Row;
use books::walk::{Rows, Terms};
use certificates::fault::DocketFault;
use certificates::value::Quantities;
use listing_fields::term::Term;

/// The number of a column; nought past the last number.
fn number_of(values: Quantities<'_>, column: u16) -> i32
    ensures { result ≡ slice_index_or (quantities values.entry.bytes.now) column (pos 0) }
{
    values
        .get(usize::from(column))
        .map_or(0, |value| value.into())
}

/// Coefficient times number at one term.
fn term_product(values: Quantities<'_>, term: Term) -> i64
    ensures { result ≡ term.coefficient *ℤ slice_index_or (quantities values.entry.bytes.now) term.column (pos 0) }
{
    wide_product(term.coefficient, number_of(values, term.column))
}

/// Whether an activity lies on or between the sides of a row that are present.
fn is_between(row: Row, activity: i64) -> bool
    ensures { result ≡ within_sides row.lower row.upper activity }
{
    row.lower.is_none_or(|side| side <= activity) && row.upper.is_none_or(|side| activity <= side)
}

impl<B: Book> Within<'_, B> {
    /// The sum of coefficient times number over the terms of a row.
    fn activity(&self, i: usize) -> i64
        ensures { result ≡ row_activity (terms_of (B.Book.meaning self.now.book.now) i) (quantities self.now.values.bytes.now) }
    {
        let mut sum = 0;
        for term in Terms::of(self.book, i) {
            sum += term_product(self.values, term);
        }
        sum
    }

    /// Every row against its sides; the first row beyond is the fault.
    pub(crate) fn check_rows(&self) -> Result<(), DocketFault>
        ensures { result ≡ passed (first_broken_row 0 (B.Book.meaning self.now.book.now).rows (quantities self.now.values.bytes.now)) }
    {
        Rows::of(self.book)
            .enumerate()
            .find(|(i, row)| !is_between(*row, self.activity(*i)))
            .map_or(
                Ok(()),
                |(row, Row { code, .. })| Err(DocketFault::RowBroken { row, code }),
            )
    }
}
