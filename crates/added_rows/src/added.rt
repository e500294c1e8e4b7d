//! A book with rows of its own, in a table, behind those of the book below.
ghost use Rattle.std.specs.Prelude.{◌≡◌, ◌+◌, ◌≤◌, true, map, length, is_ok, if◌then◌else◌, MatchResult};
ghost use Rattle.added_rows.specs.Adding.{Added, row_of, all_fit, answer};

use crate::condition::is_fit;
use crate::table::{AddedRow, Table};
use books::book::Book;
use books::fault::BookFault;
use books::part::{Column, Row};
use listing_fields::term::Term;

/// A book, and a table of rows that stand behind its own.
#[derive(Drop)]
pub struct AddedRows<B: Book> {
    below: B,
    /// The number of columns for which the rows of the table were judged.
    columns: usize,
    table: Table,
    ghost judged: { all_fit columns table ≡ true },
    ghost held: { length table ≤ 32 },
}

impl<B: Book> AddedRows<B> {
    ghost use Rattle.added_rows.specs.OwnRows.{full_row};
    ghost use Rattle.added_rows.specs.Meaning.{own_rows, own_count, means};

    /// The book below, with no row added: it means what the book below means.
    pub fn new(below: B) -> AddedRows<B>
        ensures meaning { means B.Book.meaning result ≡ B.Book.meaning below }
        ensures none { own_count B.Book.meaning result ≡ 0 }
    {
        let columns = below.column_count();
        AddedRows {
            below,
            columns,
            table: Table::new(),
        }
    }

    /// The rows of its own; the book below has `first` rows.
    fn own_rows(&self, first: usize) -> &[AddedRow]
        requires { first ≡ length (B.Book.meaning self.now.below).rows }
        ensures { map full_row result.now ≡ own_rows B.Book.meaning self.now }
    {
        let rows = self.table.rows();
        if self.columns == self.below.column_count() && first + rows.len() <= 4000 {
            rows
        } else {
            &[]
        }
    }

    /// Adds a row behind all others and says its number, or refuses it and changes nothing.
    pub fn add(
        &mut self,
        lower: Option<i64>,
        upper: Option<i64>,
        terms: &[Term],
    ) -> Result<usize, BookFault>
        ensures answer { result ≡ answer (own_count B.Book.meaning self.old) (means B.Book.meaning self.old) (row_of lower upper terms.now) }
        ensures meaning { MatchResult result
            (λ _. Added (means B.Book.meaning self.old) (row_of lower upper terms.now) (means B.Book.meaning self.new))
            (λ _. self.new ≡ self.old) }
        ensures own { own_count B.Book.meaning self.new ≡ (if is_ok result then own_count B.Book.meaning self.old + 1 else own_count B.Book.meaning self.old) }
    {
        let columns = self.below.column_count();
        let first = self.below.row_count();
        let own = self.own_rows(first).len();
        let row = first + own;
        if own >= 32 || row >= 4000 {
            return Err(BookFault::NoRoom { row });
        }
        if !is_fit(columns, lower, upper, terms) {
            return Err(BookFault::UnfitRow { row });
        }
        // Rows that do not count are dropped; after `new` and `add` all count.
        self.table.truncate(own);
        self.columns = columns;
        self.table.add(AddedRow::new(lower, upper, terms));
        Ok(row)
    }
}

impl<B: Book> Book for AddedRows<B> {
    ghost use Rattle.added_rows.specs.Meaning.{means};
    ghost use Rattle.added_rows.specs.Layered.{means_sound};

    ghost meaning = { λ a. means B.Book.meaning a };

    ghost kept = { λ a. means_sound B.Book.meaning a (B.Book.kept a.below) };

    fn column_count(&self) -> usize {
        self.below.column_count()
    }

    fn column(&self, j: usize) -> Option<Column> {
        self.below.column(j)
    }

    fn row_count(&self) -> usize {
        let first = self.below.row_count();
        first + self.own_rows(first).len()
    }

    fn row(&self, i: usize) -> Option<Row> {
        let first = self.below.row_count();
        if i < first {
            self.below.row(i)
        } else {
            self.own_rows(first).get(i - first).map(AddedRow::head)
        }
    }

    fn term(&self, i: usize, k: usize) -> Option<Term> {
        let first = self.below.row_count();
        if i < first {
            self.below.term(i, k)
        } else {
            self.own_rows(first).get(i - first)?.terms().get(k).copied()
        }
    }
}
