//! The answer to a set of multipliers.
ghost use Rattle.std.specs.Prelude.{◌≡◌, true, length, ℤ, Ok, MatchResult};
ghost use Rattle.books.specs.Conditions.{every};
ghost use Rattle.certificates.specs.Values.{multipliers};
ghost use Rattle.certificates.specs.Checks.{right_count, judged_set, set_answer, SetPasses};
ghost use Rattle.multipliers.specs.Sums.{columns_total};
ghost use Rattle.multipliers.specs.Costs.{is_clear};

use crate::costs::Costs;
use crate::rows::{add_rows, check_sides, check_sizes};
use crate::working_table::WorkingTable;
use books::book::Book;
use certificates::fault::DocketFault;
use certificates::value::{Multiplier, Multipliers, are_counted};

/// The total and what the columns add; the costs are cleared again.
fn add_reduced_costs<B: Book>(
    costs: &mut Costs,
    book: &B,
    values: Multipliers<'_>,
    total: i64,
) -> Result<i64, DocketFault>
    requires { every is_clear costs.old.entries ≡ true }
    ensures sum { result ≡ columns_total (B.Book.meaning book.now).rows (multipliers values.entry.bytes.now) 0 (B.Book.meaning book.now).columns total }
    ensures same { costs.new ≡ costs.old }
{
    costs.start(book);
    costs.subtract_rows(book, values);
    let sum = costs.add_columns(book, total);
    costs.clear(book.column_count());
    sum
}

/// The answer to multipliers of the right count.
fn judge_multipliers<B: Book>(
    book: &B,
    table: &mut WorkingTable,
    values: Multipliers<'_>,
) -> Result<i64, DocketFault>
    ensures answer { result ≡ judged_set (B.Book.meaning book.now) (multipliers values.entry.bytes.now) }
    ensures same { table.new ≡ table.old }
{
    check_sizes(book, values)?;
    check_sides(book, values)?;
    let total = add_rows(book, values)?;
    add_reduced_costs(&mut table.costs, book, values, total)
}

/// The bound that a set gives, in fine units, or why it is refused. The table is as it was.
pub fn judge_set<B: Book>(
    book: &B,
    table: &mut WorkingTable,
    values: &[u8],
) -> Result<i64, DocketFault>
    ensures answer { result ≡ set_answer (B.Book.meaning book.now) values.now }
    ensures same { table.new ≡ table.old }
    ensures passes { MatchResult result
        (λ v. (right_count 8 (length (B.Book.meaning book.now).rows) values.now ≡ true)
        × SetPasses (B.Book.meaning book.now) (multipliers values.now) v)
        (λ _. Unit {0}) }
    ensures accepts { (v : ℤ)
        → right_count 8 (length (B.Book.meaning book.now).rows) values.now ≡ true
        → SetPasses (B.Book.meaning book.now) (multipliers values.now) v
        → result ≡ Ok v }
{
    if !are_counted::<Multiplier>(values, book.row_count()) {
        return Err(DocketFault::ValueCount);
    }
    judge_multipliers(book, table, Multipliers::new(values))
}
