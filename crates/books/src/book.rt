//! The five questions that are put to a book.
ghost use Rattle.std.specs.Prelude.{◌≡◌, true, length};
ghost use Rattle.books.specs.Lists.{Lists, column_at, row_at, term_at};
ghost use Rattle.books.specs.Conditions.{sound};

use crate::part::{Column, Row};
use listing_fields::term::Term;

/// A book means a list of columns and a list of rows, which keep the conditions.
/// No question changes what it means.
pub trait Book {
    ghost meaning: { Self → Lists };

    /// The number of columns.
    fn column_count(&self) -> usize
        ensures { result ≡ length (meaning self.now).columns };

    /// One column, or none past the end.
    fn column(&self, j: usize) -> Option<Column>
        ensures { result ≡ column_at (meaning self.now) j };

    /// The number of rows.
    fn row_count(&self) -> usize
        ensures { result ≡ length (meaning self.now).rows };

    /// One row with its number of terms, or none past the end.
    fn row(&self, i: usize) -> Option<Row>
        ensures { result ≡ row_at (meaning self.now) i };

    /// One term of a row, or none past the row's terms and past the end.
    fn term(&self, i: usize, k: usize) -> Option<Term>
        ensures { result ≡ term_at (meaning self.now) i k };

    ghost kept: { (b : Self) → sound (meaning b) ≡ true };
}
