//! The conditions on an added row.
ghost use Rattle.std.specs.Prelude.{◌≡◌};
ghost use Rattle.added_rows.specs.Adding.{row_of, is_fit};

use books::condition::{are_sound_sides, are_sound_terms};
use listing_fields::term::Term;

/// Whether a row of these sides and terms may stand in a table, over so many columns.
pub fn is_fit(columns: usize, lower: Option<i64>, upper: Option<i64>, terms: &[Term]) -> bool
    ensures { result ≡ is_fit columns (row_of lower upper terms.now) }
{
    terms.len() <= 16 && are_sound_sides(lower, upper) && are_sound_terms(columns, terms)
}
