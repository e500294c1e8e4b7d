//! The reduced costs of a book's columns, and the passes over them.
ghost use Rattle.std.specs.Prelude.{◌≡◌, ◌<◌, ◌≤◌, ◌++◌, length, drop, IfOk, None, replicate, slice_index_or, slice_set};
ghost use Rattle.books.specs.Walks.{terms_of};
ghost use Rattle.certificates.specs.Values.{multipliers};
ghost use Rattle.multipliers.specs.Costs.{nought, cost_less, with_entries, started, terms_taken, row_taken, rows_taken, table_total};

use crate::step::{add_column, start_cost, subtract_term};
use books::book::Book;
use books::walk::{Columns, Terms};
use certificates::fault::DocketFault;
use certificates::value::Multipliers;
use listing_fields::term::Term;
use std::alloc::{AllocError, Global};
use std::marker::Model;

/// How many columns a book may have.
const MOST_COLUMNS: usize = 4000;

/// A reduced cost for each column that a book may have; one that left the reach is absent. They stay in one block of memory.
#[derive(Drop)]
pub(crate) struct Costs {
    entries: Vec<Option<i64>>,
}

impl Model for Costs {
    ghost use Rattle.std.specs.Prelude.{◌≡◌, vec_len};
    ghost use Rattle.std.specs.Vec.{vec_items, vec_ptr, vec_capacity};
    ghost use Rattle.multipliers.specs.Costs.{Held};

    ghost Value = { Held };

    ghost view = { λ c. record { entries = vec_items c.entries; block = vec_ptr c.entries; room = vec_capacity c.entries } };

    ghost invariant = { λ c. vec_len c.entries ≡ 4000 };
}

/// Writes nought into the first entries.
fn clear_front(entries: &mut [Option<i64>], count: usize)
    requires { count ≤ length entries.old }
    ensures { entries.new ≡ replicate count nought ++ drop count entries.old }
{
    entries[..count].fill(Some(0));
}

impl Costs {
    /// Noughts, if there is memory for them.
    pub(crate) fn new(heap: Global) -> Result<Costs, AllocError>
        ensures { IfOk result (λ c. c.entries ≡ replicate 4000 nought) }
    {
        Ok(Costs {
            entries: vec![in heap; Some(0); MOST_COLUMNS]?,
        })
    }

    /// Writes what each column starts from.
    pub(crate) fn start<B: Book>(&mut self, book: &B)
        ensures starts { self.new ≡ with_entries (started 0 (B.Book.meaning book.now).columns self.old.entries) self.old }
        ensures long { length self.old.entries ≡ 4000 }
    {
        // Kept: behind `iter_mut().zip(..)` nothing is known of what the loop wrote, so that `starts` and the table's length stay open.
        for (j, column) in Columns::of(book).enumerate() {
            self.entries[j] = start_cost(column);
        }
    }

    /// Subtracts a term times the multiplier from its column.
    fn subtract_at(&mut self, term: Term, y: i64)
        requires { term.column < 4000 }
        ensures { self.new ≡ with_entries (slice_set self.old.entries term.column (cost_less (slice_index_or self.old.entries term.column None) y term.coefficient)) self.old }
    {
        let j = usize::from(term.column);
        self.entries[j] = subtract_term(self.entries[j], y, term.coefficient);
    }

    /// Subtracts a row's terms, each times the multiplier, from their columns.
    fn subtract_terms<B: Book>(&mut self, book: &B, i: usize, y: i64)
        ensures { self.new ≡ with_entries (terms_taken (terms_of (B.Book.meaning book.now) i) y self.old.entries) self.old }
    {
        for term in Terms::of(book, i) {
            self.subtract_at(term, y);
        }
    }

    /// The same, where a row of multiplier nought is skipped.
    fn subtract_row<B: Book>(&mut self, book: &B, i: usize, y: i64)
        ensures { self.new ≡ with_entries (row_taken (terms_of (B.Book.meaning book.now) i) y self.old.entries) self.old }
    {
        if y != 0 {
            self.subtract_terms(book, i, y);
        }
    }

    /// Subtracts every row, each times its multiplier.
    pub(crate) fn subtract_rows<B: Book>(&mut self, book: &B, values: Multipliers<'_>)
        ensures { self.new ≡ with_entries (rows_taken (B.Book.meaning book.now).rows (multipliers values.entry.bytes.now) self.old.entries) self.old }
    {
        for (i, y) in values.iter().enumerate() {
            self.subtract_row(book, i, y.into());
        }
    }

    /// The total and what the columns add by their reduced costs.
    pub(crate) fn add_columns<B: Book>(&self, book: &B, total: i64) -> Result<i64, DocketFault>
        ensures { result ≡ table_total 0 (B.Book.meaning book.now).columns self.now.entries total }
    {
        let mut sum = total;
        for (j, (column, cost)) in Columns::of(book).zip(self.entries.iter()).enumerate() {
            sum = add_column(j, column, *cost, sum)?;
        }
        Ok(sum)
    }

    /// Writes nought into the first entries.
    pub(crate) fn clear(&mut self, count: usize)
        requires { count ≤ 4000 }
        ensures { self.new ≡ with_entries (replicate count nought ++ drop count self.old.entries) self.old }
    {
        clear_front(&mut self.entries, count);
    }
}
