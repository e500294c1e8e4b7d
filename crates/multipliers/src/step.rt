//! What one multiplier, one term and one column do.
ghost use Rattle.std.specs.Prelude.{◌≡◌};
ghost use Rattle.certificates.specs.Checks.{multiplier_reaches, has_side};
ghost use Rattle.multipliers.specs.Sums.{by_sign, with_limit, row_total, column_total};
ghost use Rattle.multipliers.specs.Costs.{start, cost_less};

use books::part::{Column, Row};
use certificates::fault::DocketFault;
use reach::{less, more, product};

/// Fine units to the unit.
const SCALE: i64 = 100_000;

/// Whether a multiplier lies within ±10^12.
pub(crate) fn multiplier_reaches(y: i64) -> bool
    ensures { result ≡ multiplier_reaches y }
{
    y.unsigned_abs() <= 1_000_000_000_000
}

/// Whether the side that the multiplier's sign takes is present.
pub(crate) fn has_side(y: i64, row: Row) -> bool
    ensures { result ≡ has_side y row.lower row.upper }
{
    if y > 0 {
        row.upper.is_some()
    } else if y < 0 {
        row.lower.is_some()
    } else {
        true
    }
}

/// The lower number if the factor is negative, else the upper.
fn by_sign(factor: i64, low: i64, high: i64) -> i64
    ensures { result ≡ by_sign factor low high }
{
    if factor < 0 { low } else { high }
}

/// The total and the factor times the limit that its sign takes.
fn add_limit(total: i64, factor: i64, low: i64, high: i64) -> Option<i64>
    ensures { result ≡ with_limit total factor low high }
{
    more(total, factor, by_sign(factor, low, high))
}

/// The total and what a row adds.
pub(crate) fn add_row(i: usize, row: Row, y: i64, total: i64) -> Result<i64, DocketFault>
    ensures { result ≡ row_total i row y total }
{
    add_limit(total, y, row.lower.unwrap_or(0), row.upper.unwrap_or(0)).ok_or(
        DocketFault::RowBeyond {
            row: i,
            code: row.code,
        },
    )
}

/// What a column's reduced cost starts from.
pub(crate) fn start_cost(column: Column) -> Option<i64>
    ensures { result ≡ start column }
{
    product(SCALE, i64::from(column.price))
}

/// A reduced cost less multiplier × coefficient.
pub(crate) fn subtract_term(cost: Option<i64>, y: i64, coefficient: i32) -> Option<i64>
    ensures { result ≡ cost_less cost y coefficient }
{
    less(cost?, y, i64::from(coefficient))
}

/// The total and what a column adds by its reduced cost.
pub(crate) fn add_column(
    j: usize,
    column: Column,
    cost: Option<i64>,
    total: i64,
) -> Result<i64, DocketFault>
    ensures { result ≡ column_total j column cost total }
{
    cost.and_then(|k| add_limit(total, k, i64::from(column.lower), i64::from(column.upper)))
        .ok_or(DocketFault::ColumnBeyond { column: j })
}
