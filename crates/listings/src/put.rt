//! Writing the parts of a listing into a buffer, one behind the other.
ghost use Rattle.std.specs.Prelude.{◌+◌, ◌≤◌, length};
ghost use Rattle.std.specs.List.{flat_map};
ghost use Rattle.listing_fields.specs.Terms.{term_bytes, terms_bytes};
ghost use Rattle.books.specs.Walks.{terms_of};
ghost use Rattle.listings.specs.Writing.{column_bytes, row_bytes, head_bytes};

use books::book::Book;
use books::part::{Column, Row};
use books::walk::{Columns, Rows, Terms};
use listing_fields::record::EntryKind;
use listing_fields::sides::{side_byte, side_number};
use listing_fields::term::Term;

const COLUMN_SIZE: u8 = 13;

/// A buffer that is written up to a place.
#[derive(Drop)]
// Kept: the contract of a writing says where it began and what stays behind it, which a slice that shrinks with each write would not show.
pub(crate) struct Writer<'a> {
    pub(crate) out: &'a mut [u8],
    pub(crate) at: usize,
}

impl Writer<'_> {
    ghost use Rattle.listings.specs.Puts.{Puts};

    /// Writes bytes.
    fn put(&mut self, bytes: &[u8])
        requires { self.old.at + length bytes.now ≤ length self.old.out.now }
        ensures { Puts self.old bytes.now self.new }
    {
        let end = self.at + bytes.len();
        self.out[self.at..end].copy_from_slice(bytes);
        self.at = end;
    }

    /// Writes a term.
    fn put_term(&mut self, term: Term)
        requires { self.old.at + 6 ≤ length self.old.out.now }
        ensures { Puts self.old (term_bytes term) self.new }
    {
        self.put(&term.column.to_be_bytes());
        self.put(&term.coefficient.to_be_bytes());
    }

    /// Writes the field of a column.
    fn put_column(&mut self, column: Column)
        requires { self.old.at + 16 ≤ length self.old.out.now }
        ensures { Puts self.old (column_bytes column) self.new }
    {
        self.put(&[EntryKind::Column.tag(), 0, COLUMN_SIZE]);
        self.put(&column.lower.to_be_bytes());
        self.put(&column.upper.to_be_bytes());
        self.put(&column.price.to_be_bytes());
        self.put(&[u8::from(column.switch)]);
    }

    /// Writes the field of a row up to its terms.
    fn put_head(&mut self, row: Row)
        requires { (self.old.at + 21 ≤ length self.old.out.now) × (row.terms ≤ 500) }
        ensures { Puts self.old (head_bytes row) self.new }
    {
        let size = 18 + 6 * row.terms as u16;
        self.put(&[EntryKind::Row.tag()]);
        self.put(&size.to_be_bytes());
        self.put(&[row.code, side_byte(row.lower, row.upper)]);
        self.put(&side_number(row.lower).to_be_bytes());
        self.put(&side_number(row.upper).to_be_bytes());
    }

    /// Writes the terms of a row.
    fn put_terms<B: Book>(&mut self, book: &B, row: usize)
        requires { self.old.at + length (terms_bytes (terms_of (B.Book.meaning book.now) row)) ≤ length self.old.out.now }
        ensures { Puts self.old (terms_bytes (terms_of (B.Book.meaning book.now) row)) self.new }
    {
        for term in Terms::of(book, row) {
            self.put_term(term);
        }
    }

    /// Writes the fields of the columns.
    pub(crate) fn put_columns<B: Book>(&mut self, book: &B)
        requires { self.old.at + length (flat_map column_bytes (B.Book.meaning book.now).columns) ≤ length self.old.out.now }
        ensures { Puts self.old (flat_map column_bytes (B.Book.meaning book.now).columns) self.new }
    {
        for column in Columns::of(book) {
            self.put_column(column);
        }
    }

    /// Writes the fields of the rows.
    pub(crate) fn put_rows<B: Book>(&mut self, book: &B)
        requires { self.old.at + length (flat_map row_bytes (B.Book.meaning book.now).rows) ≤ length self.old.out.now }
        ensures { Puts self.old (flat_map row_bytes (B.Book.meaning book.now).rows) self.new }
    {
        for (i, row) in Rows::of(book).enumerate() {
            self.put_head(row);
            self.put_terms(book, i);
        }
    }
}
