//! The table of the added rows.
ghost use Rattle.std.specs.Prelude.{◌≡◌, ◌+◌, ◌<◌, ◌≤◌, [], ◌∷◌, ◌++◌, map, length, take};
ghost use Rattle.std.specs.List.{slice_get};
ghost use Rattle.books.specs.Lists.{head};

use books::part::Row;
use listing_fields::term::Term;
use std::marker::Model;

/// A row of at most 16 terms. Its code is 0.
// Kept: a rule of the project has at most 32 added rows of 16 terms in a plain table.
#[derive(Clone, Copy)]
pub struct AddedRow {
    lower: Option<i64>,
    upper: Option<i64>,
    count: usize,
    terms: [Term; 16],
    ghost long: { length terms ≡ 16 },
    ghost fits: { count ≤ 16 },
}

impl AddedRow {
    ghost use Rattle.added_rows.specs.OwnRows.{full_row};
    ghost use Rattle.added_rows.specs.Adding.{row_of};

    /// A row with these sides and terms.
    pub fn new(lower: Option<i64>, upper: Option<i64>, terms: &[Term]) -> AddedRow
        requires { length terms.now ≤ 16 }
        ensures { full_row result ≡ row_of lower upper terms.now }
    {
        let none = Term {
            column: 0,
            coefficient: 0,
        };
        let mut stored = [none; 16];
        stored[..terms.len()].copy_from_slice(terms);
        AddedRow {
            lower,
            upper,
            count: terms.len(),
            terms: stored,
        }
    }

    /// The row without its terms.
    pub fn head(&self) -> Row
        ensures { result ≡ head (full_row self.now) }
    {
        Row {
            code: 0,
            lower: self.lower,
            upper: self.upper,
            terms: self.count,
        }
    }

    /// Its terms.
    pub fn terms(&self) -> &[Term]
        ensures { result.now ≡ (full_row self.now).terms }
    {
        &self.terms[..self.count]
    }
}

/// At most 32 rows.
// Kept: a rule of the project has the added rows in a plain table, of which one element is written by a method of its own.
#[derive(Drop)]
pub struct Table {
    rows: [AddedRow; 32],
    used: usize,
}

impl Model for Table {
    ghost use Rattle.std.specs.Prelude.{◌≡◌, ◌≤◌, List, map, length, take};
    ghost use Rattle.books.specs.Lists.{FullRow};
    ghost use Rattle.added_rows.specs.OwnRows.{full_row};

    ghost Value = { List FullRow };

    ghost view = { λ t. map full_row (take t.used t.rows) };

    ghost invariant = { λ t. (length t.rows ≡ 32) × (t.used ≤ 32) };
}

impl Table {
    ghost use Rattle.added_rows.specs.OwnRows.{full_row};

    /// A table of no rows.
    pub fn new() -> Table
        ensures { result ≡ [] }
    {
        Table {
            rows: [AddedRow::new(None, None, &[]); 32],
            used: 0,
        }
    }

    /// Its rows.
    pub fn rows(&self) -> &[AddedRow]
        ensures rows { map full_row result.now ≡ self.now }
        ensures few { length result.now ≤ 32 }
    {
        &self.rows[..self.used]
    }

    /// Keeps the first rows, so many.
    pub fn truncate(&mut self, len: usize)
        requires { len ≤ length self.old }
        ensures { self.new ≡ take len self.old }
    {
        self.used = len;
    }

    /// Puts a row at the end.
    pub fn add(&mut self, row: AddedRow)
        requires { length self.old < 32 }
        ensures { self.new ≡ self.old ++ full_row row ∷ [] }
    {
        self.rows[self.used] = row;
        self.used += 1;
    }
}
