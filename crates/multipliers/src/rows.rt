//! The passes over the multipliers that look at the rows alone.
ghost use Rattle.std.specs.Prelude.{◌≡◌, ℤ, Bool, pos};
ghost use Rattle.std.specs.Int.RustNames.{FitsSigned};
ghost use Rattle.std.specs.Int.{w64};
ghost use Rattle.books.specs.Walks.{heads_of};
ghost use Rattle.books.specs.declared.part.Row.{Row as TheRow};
ghost use Rattle.certificates.specs.Values.{multipliers};
ghost use Rattle.certificates.specs.Checks.{first_large, first_sideless, passed};
ghost use Rattle.multipliers.specs.Sums.{first_refused, rows_total};

use crate::step::{add_row, has_side, multiplier_reaches};
use books::book::Book;
use books::part::Row;
use books::walk::Rows;
use certificates::fault::DocketFault;
use certificates::value::Multipliers;

/// Every row and its multiplier by a test; the first that is refused is given by its number and its code.
fn check_rows<B: Book, T: Fn(Row, i64) -> bool>(
    book: &B,
    values: Multipliers<'_>,
    takes: T,
) -> Result<(), (usize, u8)>
    requires { T.IsAlwaysCallable takes }
    ensures { (test : TheRow → ℤ → Bool)
        → ((r : TheRow) (y : ℤ) (t : Bool) → FitsSigned w64 y → T.post takes r y t → t ≡ test r y)
        → result ≡ first_refused test 0 (heads_of (B.Book.meaning book.now)) (multipliers values.entry.bytes.now) }
{
    Rows::of(book)
        .zip(values.iter())
        .enumerate()
        .find(|(_, (row, y))| !takes(*row, (*y).into()))
        .map_or(Ok(()), |(i, (row, _))| Err((i, row.code)))
}

/// The first row whose multiplier lies beyond ±10^12 is the fault.
pub(crate) fn check_sizes<B: Book>(book: &B, values: Multipliers<'_>) -> Result<(), DocketFault>
    ensures { result ≡ passed (first_large 0 (B.Book.meaning book.now).rows (multipliers values.entry.bytes.now)) }
{
    let checked = check_rows(book, values, |_, y| multiplier_reaches(y));
    checked.map_err(|(row, code)| DocketFault::MultiplierBeyond { row, code })
}

/// The first row without the side that its multiplier takes is the fault.
pub(crate) fn check_sides<B: Book>(book: &B, values: Multipliers<'_>) -> Result<(), DocketFault>
    ensures { result ≡ passed (first_sideless 0 (B.Book.meaning book.now).rows (multipliers values.entry.bytes.now)) }
{
    let checked = check_rows(book, values, |row, y| has_side(y, row));
    checked.map_err(|(row, code)| DocketFault::SideAbsent { row, code })
}

/// What the rows add, in order.
pub(crate) fn add_rows<B: Book>(book: &B, values: Multipliers<'_>) -> Result<i64, DocketFault>
    ensures { result ≡ rows_total 0 (B.Book.meaning book.now).rows (multipliers values.entry.bytes.now) (pos 0) }
{
    let mut total = 0;
    for (i, (row, y)) in Rows::of(book).zip(values.iter()).enumerate() {
        total = add_row(i, row, y.into(), total)?;
    }
    Ok(total)
}
