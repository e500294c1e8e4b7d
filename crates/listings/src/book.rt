//! A book that was read from a listing.
ghost use Rattle.stored_book.specs.Books.{book_sound};
ghost use Rattle.listings.specs.Books.{listed_lists};

use books::book::Book;
use books::part::{Column, Row};
use listing_fields::term::Term;
use stored_book::book::StoredBook;

/// A book that was read from a listing.
#[derive(Drop)]
pub struct ListedBook {
    pub(crate) book: StoredBook,
}

// Kept: there is one trait with the five questions, and an impl that a macro writes is refused; so a book around another asks it each question.
impl Book for ListedBook {
    ghost meaning = { listed_lists };

    ghost kept = { λ b. book_sound b.book };

    fn column_count(&self) -> usize {
        self.book.column_count()
    }

    fn column(&self, j: usize) -> Option<Column> {
        self.book.column(j)
    }

    fn row_count(&self) -> usize {
        self.book.row_count()
    }

    fn row(&self, i: usize) -> Option<Row> {
        self.book.row(i)
    }

    fn term(&self, i: usize, k: usize) -> Option<Term> {
        self.book.term(i, k)
    }
}
