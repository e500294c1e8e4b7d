//! The book over a case.
ghost use Rattle.std.specs.Prelude.{◌≡◌};
ghost use Rattle.std.specs.List.{slice_get};
ghost use Rattle.stored_book.specs.Books.{book_sound};
ghost use Rattle.clause_book.specs.Books.{clause_lists, named_in};

use books::book::Book;
use books::part::{Column, Row};
use case_columns::name::Named;
use case_columns::table::Table;
use listing_fields::term::Term;
use stored_book::book::StoredBook;

/// The book over a case, with the names of its columns.
#[derive(Drop)]
pub struct ClauseBook {
    pub(crate) book: StoredBook,
    pub(crate) table: Table,
}

impl ClauseBook {
    /// A column with its name, or none past the end.
    pub fn named(&self, j: usize) -> Option<Named>
        ensures { result ≡ slice_get (named_in self.now) j }
    {
        self.table.get(j)
    }
}

// Kept: there is one trait with the five questions, and an impl that a macro writes is refused; so a book around another asks it each question.
impl Book for ClauseBook {
    ghost meaning = { clause_lists };

    ghost kept = { λ b. book_sound b.book };

    fn column_count(&self) -> usize {
        self.book.column_count()
    }

    fn column(&self, j: usize) -> Option<Column> {
        self.book.column(j)
    }

    fn row_count(&self) -> usize {
        self.book.row_count()
    }

    fn row(&self, i: usize) -> Option<Row> {
        self.book.row(i)
    }

    fn term(&self, i: usize, k: usize) -> Option<Term> {
        self.book.term(i, k)
    }
}
