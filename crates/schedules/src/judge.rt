//! The verdict on a schedule.
ghost use Rattle.std.specs.Prelude.{◌≡◌, true, length, ℤ, Ok, MatchResult};
ghost use Rattle.certificates.specs.Values.{quantities};
ghost use Rattle.certificates.specs.Checks.{right_count, schedule_answer, SchedulePasses};

use crate::limit::check_columns;
use crate::price::reached;
use books::book::Book;
use certificates::fault::DocketFault;
use certificates::value::{Quantities, Quantity, are_counted};

/// The net benefit of a schedule that passes every check, or the fault of the first that fails:
/// the bytes divide by four, one number a column, limits, sides, and the net benefit within ±10^13.
pub fn judge_schedule<B: Book>(book: &B, values: &[u8]) -> Result<i64, DocketFault>
    ensures answer { result ≡ schedule_answer (B.Book.meaning book.now) values.now }
    ensures passes { MatchResult result
        (λ v. (right_count 4 (length (B.Book.meaning book.now).columns) values.now ≡ true) × SchedulePasses (B.Book.meaning book.now) (quantities values.now) v)
        (λ _. Unit {0}) }
    ensures accepts { (v : ℤ) → right_count 4 (length (B.Book.meaning book.now).columns) values.now ≡ true → SchedulePasses (B.Book.meaning book.now) (quantities values.now) v → result ≡ Ok v }
{
    if !are_counted::<Quantity>(values, book.column_count()) {
        return Err(DocketFault::ValueCount);
    }
    let schedule = check_columns(book, Quantities::new(values))?;
    schedule.check_rows()?;
    let figure = schedule.net_benefit();
    reached(figure)
}
