//! The entries of a book, one after the other.
ghost use Rattle.std.specs.Prelude.{◌≡◌, ◌≤◌, length, drop};
ghost use Rattle.std.specs.Iterator.{YieldsFirst, item_count};
ghost use Rattle.books.specs.Walks.{heads_of, terms_of};

use crate::book::Book;
use crate::part::{Column, Row};
use listing_fields::term::Term;

/// The columns of a book that are left.
// Kept: the three walks differ in the question that they put; one walk over a trait of questions would be that trait, its three impls and the walk, and one over a closure would be an iterator of which no contract names the book.
#[derive(Clone, Copy)]
pub struct Columns<'b, B> {
    pub book: &'b B,
    pub next: usize,
}

impl<'b, B: Book> Columns<'b, B> {
    /// The columns of a book, in order.
    pub fn of(book: &'b B) -> Columns<'b, B>
        ensures book { result.book.now ≡ book.now }
        ensures next { result.next ≡ 0 }
        ensures few { length (drop result.next (B.Book.meaning result.book.now).columns) ≤ 4000 }
    {
        Columns { book, next: 0 }
    }
}

impl<B: Book> Iterator for Columns<'_, B> {
    type Item = Column;

    ghost next_gives = { YieldsFirst (λ s. drop s.next (B.Book.meaning s.book.now).columns) };

    ghost remaining = { item_count (λ s. drop s.next (B.Book.meaning s.book.now).columns) };

    fn next(&mut self) -> Option<Column> {
        let column = self.book.column(self.next)?;
        self.next += 1;
        Some(column)
    }
}

/// The rows of a book that are left, each without its terms.
#[derive(Clone, Copy)]
pub struct Rows<'b, B> {
    pub book: &'b B,
    pub next: usize,
}

impl<'b, B: Book> Rows<'b, B> {
    /// The rows of a book, in order, each without its terms.
    pub fn of(book: &'b B) -> Rows<'b, B>
        ensures book { result.book.now ≡ book.now }
        ensures next { result.next ≡ 0 }
        ensures few { length (drop result.next (heads_of (B.Book.meaning result.book.now))) ≤ 4000 }
    {
        Rows { book, next: 0 }
    }
}

impl<B: Book> Iterator for Rows<'_, B> {
    type Item = Row;

    ghost next_gives = { YieldsFirst (λ s. drop s.next (heads_of (B.Book.meaning s.book.now))) };

    ghost remaining = { item_count (λ s. drop s.next (heads_of (B.Book.meaning s.book.now))) };

    fn next(&mut self) -> Option<Row> {
        let row = self.book.row(self.next)?;
        self.next += 1;
        Some(row)
    }
}

/// The terms of a row that are left.
#[derive(Clone, Copy)]
pub struct Terms<'b, B> {
    pub book: &'b B,
    pub row: usize,
    pub next: usize,
}

impl<'b, B: Book> Terms<'b, B> {
    /// The terms of the row of a number, in order; none past the last row.
    pub fn of(book: &'b B, row: usize) -> Terms<'b, B>
        ensures book { result.book.now ≡ book.now }
        ensures row { result.row ≡ row }
        ensures next { result.next ≡ 0 }
        ensures few { length (drop result.next (terms_of (B.Book.meaning result.book.now) result.row)) ≤ 4000 }
    {
        Terms { book, row, next: 0 }
    }
}

impl<B: Book> Iterator for Terms<'_, B> {
    type Item = Term;

    ghost next_gives = { YieldsFirst (λ s. drop s.next (terms_of (B.Book.meaning s.book.now) s.row)) };

    ghost remaining = { item_count (λ s. drop s.next (terms_of (B.Book.meaning s.book.now) s.row)) };

    fn next(&mut self) -> Option<Term> {
        let term = self.book.term(self.row, self.next)?;
        self.next += 1;
        Some(term)
    }
}
