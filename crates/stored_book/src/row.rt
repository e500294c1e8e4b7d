//! A row as it is stored.
ghost use Rattle.std.specs.Prelude.{◌≡◌};
ghost use Rattle.books.specs.Lists.{head};
ghost use Rattle.books.specs.Conditions.{sound_row};

use books::condition::{are_sound_sides, are_sound_terms};
use books::part::Row;
use listing_fields::term::Term;

/// A row with its terms.
#[derive(Drop)]
pub struct StoredRow {
    pub code: u8,
    pub lower: Option<i64>,
    pub upper: Option<i64>,
    pub terms: Vec<Term>,
}

impl StoredRow {
    ghost use Rattle.stored_book.specs.Stored.{full_row};

    /// The row without its terms.
    pub fn head(&self) -> Row
        ensures { result ≡ head (full_row self.now) }
    {
        Row {
            code: self.code,
            lower: self.lower,
            upper: self.upper,
            terms: self.terms.len(),
        }
    }

    /// Whether it keeps the conditions of a row over so many columns.
    pub(crate) fn is_sound(&self, columns: usize) -> bool
        ensures { result ≡ sound_row columns (full_row self.now) }
    {
        self.code <= 19
            && are_sound_sides(self.lower, self.upper)
            && are_sound_terms(columns, &self.terms)
    }
}
