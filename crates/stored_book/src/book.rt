//! A book that holds its lists.
ghost use Rattle.std.specs.Prelude.{◌≡◌, true, false, nat_le, vec_len, MatchOption};
ghost use Rattle.books.specs.Conditions.{every, sound_column, sound_row, few, sound};
ghost use Rattle.stored_book.specs.declared.row.StoredRow.{StoredRow};
ghost use Rattle.stored_book.specs.Stored.{full_row, stored_lists};

use crate::row::StoredRow;
use books::book::Book;
use books::part::{Column, Row};
use listing_fields::term::Term;

/// Whether each column keeps the conditions.
fn columns_are_sound(columns: &[Column]) -> bool
    ensures { result ≡ every sound_column columns.now }
{
    columns.iter().all(|column| column.is_sound())
}

/// Whether no row has more than 500 terms.
fn rows_are_short(rows: &[StoredRow]) -> bool
    ensures { result ≡ every (λ (r : StoredRow). nat_le (vec_len r.terms) 500) rows.now }
{
    rows.iter().all(|row| row.terms.len() <= 500)
}

/// Whether each row keeps the conditions over so many columns.
fn rows_are_sound(columns: usize, rows: &[StoredRow]) -> bool
    ensures { result ≡ every (λ (r : StoredRow). sound_row columns (full_row r)) rows.now }
{
    rows.iter().all(|row| row.is_sound(columns))
}

/// Whether there are at most 4,000 columns, 4,000 rows and 500 terms a row.
#[tactic(auto, using(crate::proofs::Alls::mapped))]
fn are_few(columns: &[Column], rows: &[StoredRow]) -> bool
    ensures { result ≡ few (stored_lists columns.now rows.now) }
{
    columns.len() <= 4000 && rows.len() <= 4000 && rows_are_short(rows)
}

/// Whether the lists keep the conditions.
#[tactic(auto, using(crate::proofs::Alls::mapped), unfolding(books::specs::Conditions::sound))]
fn are_sound(columns: &[Column], rows: &[StoredRow]) -> bool
    ensures { result ≡ sound (stored_lists columns.now rows.now) }
{
    are_few(columns, rows) && columns_are_sound(columns) && rows_are_sound(columns.len(), rows)
}

/// A book that holds its columns and its rows.
#[derive(Drop)]
pub struct StoredBook {
    columns: Vec<Column>,
    rows: Vec<StoredRow>,
    ghost checked: { sound (stored_lists columns.items rows.items) ≡ true },
}

impl StoredBook {
    ghost use Rattle.stored_book.specs.Books.{book_lists};

    /// The book of these columns and rows, exactly when they keep the conditions.
    pub fn new(columns: Vec<Column>, rows: Vec<StoredRow>) -> Option<StoredBook>
        ensures { MatchOption result
            (sound (stored_lists columns.items rows.items) ≡ false)
            (λ b. (sound (stored_lists columns.items rows.items) ≡ true) × (book_lists b ≡ stored_lists columns.items rows.items)) }
    {
        if !are_sound(&columns, &rows) {
            return None;
        }
        Some(StoredBook { columns, rows })
    }
}

impl Book for StoredBook {
    ghost use Rattle.stored_book.specs.Books.{book_lists, book_sound};

    ghost meaning = { book_lists };

    ghost kept = { book_sound };

    fn column_count(&self) -> usize {
        self.columns.len()
    }

    fn column(&self, j: usize) -> Option<Column> {
        self.columns.get(j).copied()
    }

    fn row_count(&self) -> usize {
        self.rows.len()
    }

    fn row(&self, i: usize) -> Option<Row> {
        self.rows.get(i).map(StoredRow::head)
    }

    fn term(&self, i: usize, k: usize) -> Option<Term> {
        self.rows.get(i)?.terms.get(k).copied()
    }
}
