//! The numbers of a schedule against the limits of the columns.
ghost use Rattle.std.specs.Prelude.{◌≡◌, not, None, Some, MatchResult};
ghost use Rattle.std.specs.List.{zip, position};
ghost use Rattle.certificates.specs.Values.{quantities};
ghost use Rattle.certificates.specs.Checks.{within_limits, first_broken_column};

use books::book::Book;
use books::part::Column;
use books::walk::Columns;
use certificates::fault::DocketFault;
use certificates::value::{Quantities, Quantity};

/// A book, and a schedule of which each number lies within its column's limits.
#[derive(Drop)]
pub(crate) struct Within<'a, B: Book> {
    pub(crate) book: &'a B,
    pub(crate) values: Quantities<'a>,
    ghost limits: { first_broken_column 0 (B.Book.meaning book.now).columns (quantities values.bytes.now) ≡ None },
}

/// Whether a number lies within a column's limits.
fn is_within(column: Column, value: Quantity) -> bool
    ensures { result ≡ within_limits column value }
{
    (column.lower..=column.upper).contains(&value.into())
}

/// Every number against the limits of its column; the first that lies beyond is the fault.
pub(crate) fn check_columns<'a, B: Book>(
    book: &'a B,
    values: Quantities<'a>,
) -> Result<Within<'a, B>, DocketFault>
    ensures { MatchResult result
        (λ w. (w.book.now ≡ book.now) × (w.values.bytes.now ≡ values.entry.bytes.now))
        (λ f. first_broken_column 0 (B.Book.meaning book.now).columns (quantities values.entry.bytes.now) ≡ Some f) }
{
    let beyond = Columns::of(book)
        .zip(values.iter())
        .position(|(column, value)| !is_within(column, value));
    match beyond {
        None => Ok(Within { book, values }),
        Some(column) => Err(DocketFault::ColumnBroken { column }),
    }
}
