//! The conditions on columns and rows, as tests.
ghost use Rattle.std.specs.Prelude.{◌≡◌, not, ◌&&◌, ◌||◌, pos, int_le, nat_le, nat_lt};
ghost use Rattle.listing_fields.specs.Tests.{is_coefficient, is_nought, terms_in_range, terms_refer, terms_rise};
ghost use Rattle.books.specs.Conditions.{sound_column, sound_side, sides_in_order};

use crate::part::Column;
use listing_fields::range::{are_limits, is_price, is_side};
use listing_fields::term::Term;

impl Column {
    /// Whether the limits, if they are those of a switch, are within 0 and 1.
    fn fits_switch(self) -> bool
        ensures { result ≡ (not self.switch || (int_le (pos 0) self.lower && int_le self.upper (pos 1))) }
    {
        !self.switch || (0 <= self.lower && self.upper <= 1)
    }

    /// Whether it keeps the conditions.
    pub fn is_sound(self) -> bool
        ensures { result ≡ sound_column self }
    {
        are_limits(self.lower, self.upper) && is_price(self.price) && self.fits_switch()
    }
}

/// Whether a side that is present is in range.
fn is_sound_side(side: Option<i64>) -> bool
    ensures { result ≡ sound_side side }
{
    side.is_none_or(is_side)
}

/// Whether there is a side, and the lower is not above the upper.
fn are_in_order(lower: Option<i64>, upper: Option<i64>) -> bool
    ensures { result ≡ sides_in_order lower upper }
{
    match (lower, upper) {
        (Some(l), Some(u)) => l <= u,
        (None, None) => false,
        _ => true,
    }
}

/// Whether the sides of a row keep the conditions.
pub fn are_sound_sides(lower: Option<i64>, upper: Option<i64>) -> bool
    ensures { result ≡ (sound_side lower && sound_side upper && sides_in_order lower upper) }
{
    is_sound_side(lower) && is_sound_side(upper) && are_in_order(lower, upper)
}

/// Whether a term of a row over so many columns, whose column is to be at least the least, keeps the conditions.
fn is_sound_term(columns: usize, least: usize, term: Term) -> bool
    ensures { result ≡ ((nat_lt term.column 65536 && is_coefficient term.coefficient) && nat_lt term.column columns && (nat_le least term.column && not (is_nought term.coefficient))) }
{
    term.is_in_range() && term.refers(columns) && term.rises(least)
}

/// Whether the terms of a row over so many columns keep the conditions.
pub fn are_sound_terms(columns: usize, terms: &[Term]) -> bool
    ensures { result ≡ (terms_in_range terms.now && terms_refer columns terms.now && terms_rise 0 terms.now) }
{
    let mut least = 0;
    for term in terms {
        if !is_sound_term(columns, least, *term) {
            return false;
        }
        least = usize::from(term.column) + 1;
    }
    true
}
