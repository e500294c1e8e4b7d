//! The terms of a row, which stay in the listing.
ghost use Rattle.std.specs.Prelude.{◌≡◌, not, ◌&&◌, List, nat_le, nat_lt};
ghost use Rattle.std.specs.Iterator.{AlwaysYields, IsFinite};
ghost use Rattle.listing_fields.specs.declared.term.Term.{Term};
ghost use Rattle.listing_fields.specs.Terms.{terms_in};
ghost use Rattle.listing_fields.specs.Tests.{is_coefficient, is_nought, terms_in_range, terms_refer, terms_rise};

use crate::range::is_coefficient;
use fields::sequence::{Element, Sequence};

/// A term of a row: the number of a column, and its coefficient.
#[derive(Clone, Copy, PartialEq, Eq, Debug)]
pub struct Term {
    pub column: u16,
    pub coefficient: i32,
}

impl Term {
    /// Whether its coefficient is in range, as each column number is.
    pub fn is_in_range(self) -> bool
        ensures { result ≡ (nat_lt self.column 65536 && is_coefficient self.coefficient) }
    {
        is_coefficient(self.coefficient)
    }

    /// Whether it names one of so many columns.
    pub fn refers(self, columns: usize) -> bool
        ensures { result ≡ nat_lt self.column columns }
    {
        usize::from(self.column) < columns
    }

    /// Whether its column is at least the least, and its coefficient is not nought.
    pub fn rises(self, least: usize) -> bool
        ensures { result ≡ (nat_le least self.column && not (is_nought self.coefficient)) }
    {
        least <= usize::from(self.column) && self.coefficient != 0
    }
}

impl Element for Term {
    ghost use Rattle.listing_fields.specs.Terms.{terms_in};
    ghost use Rattle.listing_fields.specs.TermLaws.{terms_held};

    ghost WIDTH = { 6 };

    const WIDTH: usize = 6;

    ghost held = { terms_in };

    fn split(bytes: &[u8]) -> Option<(Term, &[u8])> {
        let [a, b, c, d, e, f, rest @ ..] = bytes else {
            return None;
        };
        let column = u16::from_be_bytes([*a, *b]);
        let coefficient = i32::from_be_bytes([*c, *d, *e, *f]);
        Some((
            Term {
                column,
                coefficient,
            },
            rest,
        ))
    }

    ghost laws = { terms_held };
}

/// The terms of a row, in the bytes of the listing.
pub type Terms<'a> = Sequence<'a, Term>;

/// Whether the coefficient of each term is in range.
pub(crate) fn are_in_range<I: Iterator<Item = Term> + Drop>(mut terms: I) -> bool
    requires can { I.can_next terms }
    requires ends { IsFinite (I.remaining terms) }
    ensures { (ts : List Term) → AlwaysYields I.next_gives (λ t. t) terms ts → result ≡ terms_in_range ts }
{
    terms.all(|term| term.is_in_range())
}

/// Whether each term names one of so many columns.
pub(crate) fn refer<I: Iterator<Item = Term> + Drop>(columns: usize, mut terms: I) -> bool
    requires can { I.can_next terms }
    requires ends { IsFinite (I.remaining terms) }
    ensures { (ts : List Term) → AlwaysYields I.next_gives (λ t. t) terms ts → result ≡ terms_refer columns ts }
{
    terms.all(|term| term.refers(columns))
}

/// Whether the columns rise strictly and no coefficient is nought.
pub(crate) fn rise<I: Iterator<Item = Term> + Drop>(terms: I) -> bool
    requires can { I.can_next terms }
    requires ends { IsFinite (I.remaining terms) }
    ensures { (ts : List Term) → AlwaysYields I.next_gives (λ t. t) terms ts → result ≡ terms_rise 0 ts }
{
    let mut least = 0;
    for term in terms {
        if !term.rises(least) {
            return false;
        }
        least = usize::from(term.column) + 1;
    }
    true
}

/// Whether the coefficient of each term of a slice is in range.
pub fn slice_in_range(terms: &[Term]) -> bool
    ensures { result ≡ terms_in_range terms.now }
{
    are_in_range(terms.iter().copied())
}

/// Whether each term of a slice names one of so many columns.
pub fn slice_refers(columns: usize, terms: &[Term]) -> bool
    ensures { result ≡ terms_refer columns terms.now }
{
    refer(columns, terms.iter().copied())
}

/// Whether the columns of a slice of terms rise strictly and no coefficient is nought.
pub fn slice_rises(terms: &[Term]) -> bool
    ensures { result ≡ terms_rise 0 terms.now }
{
    rise(terms.iter().copied())
}
