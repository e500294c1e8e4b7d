//! The net benefit of a schedule.
ghost use Rattle.std.specs.Prelude.{◌≡◌, Ok};
ghost use Rattle.books.specs.Schedules.{benefit as net_benefit};
ghost use Rattle.certificates.specs.Values.{quantities};
ghost use Rattle.certificates.specs.Checks.{unless, beyond_benefit};

use crate::limit::Within;
use crate::product::wide_product;
use books::book::Book;
use books::walk::Columns;
use certificates::fault::DocketFault;

/// The greatest net benefit that is accepted, and the least below nought.
const REACH: i64 = 10_000_000_000_000;

impl<B: Book> Within<'_, B> {
    /// The sum of price times number.
    pub(crate) fn net_benefit(&self) -> i64
        ensures { result ≡ net_benefit (B.Book.meaning self.now.book.now).columns (quantities self.now.values.bytes.now) }
    {
        let mut sum = 0;
        for (column, value) in Columns::of(self.book).zip(self.values.iter()) {
            sum += wide_product(column.price, value.into());
        }
        sum
    }
}

/// A net benefit, or the fault that it lies beyond ±10^13.
pub(crate) fn reached(benefit: i64) -> Result<i64, DocketFault>
    ensures { result ≡ unless (beyond_benefit benefit) (Ok benefit) }
{
    (-REACH..=REACH)
        .contains(&benefit)
        .then_some(benefit)
        .ok_or(DocketFault::BenefitBeyond)
}
