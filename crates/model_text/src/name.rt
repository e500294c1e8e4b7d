//! The names of columns as a person reads them.
ghost use Rattle.std.specs.Prelude.{◌≡◌};
ghost use Rattle.std.specs.List.{slice_get};
ghost use Rattle.clause_book.specs.Books.{named_in};
ghost use Rattle.model_text.specs.Names.{first_of, number_of, is_part, is_like, parts_before, column_name};

use case_columns::kinds::Kinds;
use case_columns::name::{Name, Quantity};
use clause_book::book::ClauseBook;
use std::fmt;

/// The place of the first record of the kind that has a quantity; none of the requirement, which a case has once.
fn first_of(kinds: Kinds, quantity: Quantity) -> Option<usize>
    ensures { result ≡ first_of kinds quantity }
{
    match quantity {
        Quantity::Injection | Quantity::Angle | Quantity::Deficit | Quantity::Excess => {
            Some(kinds.nodes.first)
        }
        Quantity::Flow
        | Quantity::Loss
        | Quantity::OverForward
        | Quantity::OverReverse
        | Quantity::ShortW
        | Quantity::OverW
        | Quantity::Weight => Some(kinds.lines.first),
        Quantity::Generation | Quantity::OverUp | Quantity::OverDown | Quantity::OfferBlock => Some(
            kinds.offers.first,
        ),
        Quantity::Purchase | Quantity::BidBlock => Some(kinds.bids.first),
        Quantity::Regulation
        | Quantity::Switch
        | Quantity::OverReg
        | Quantity::ShortReg
        | Quantity::RegulationBlock => Some(kinds.regulations.first),
        Quantity::ShortRequirement => None,
    }
}

/// The number of a column's record among those of its kind, or none of the requirement.
fn number_of(kinds: Kinds, name: Name) -> Option<usize>
    ensures { result ≡ number_of kinds name }
{
    first_of(kinds, name.quantity).map(|first| name.place.saturating_sub(first))
}

/// Whether a record has several columns of a quantity, one for each point or block.
fn is_part(quantity: Quantity) -> bool
    ensures { result ≡ is_part quantity }
{
    matches!(
        quantity,
        Quantity::Weight | Quantity::OfferBlock | Quantity::BidBlock | Quantity::RegulationBlock
    )
}

/// Whether a column is of the record and the quantity of a name.
fn is_like(book: &ClauseBook, j: usize, name: Name) -> bool
    ensures { result ≡ is_like (slice_get (named_in book.now) j) name }
{
    book.named(j).is_some_and(|other| {
        other.name.place == name.place && other.name.quantity == name.quantity
    })
}

/// How many columns straight before one are of the same record and quantity.
fn parts_before(book: &ClauseBook, name: Name, j: usize) -> usize
    ensures { result ≡ parts_before (named_in book.now) name j }
{
    // Kept: `(0..j).rev().take_while(..).count()` was tried; that it counts what `parts_before` counts stayed open.
    let mut n = 0;
    for i in (0..j).rev() {
        if !is_like(book, i, name) {
            return n;
        }
        n += 1;
    }
    n
}

/// The name of a column as it is shown: the quantity, the number of its record, and that of its point or block.
#[derive(Clone, Copy)]
pub struct ColumnName {
    pub quantity: Quantity,
    pub number: Option<usize>,
    pub part: Option<usize>,
}

/// The name of the column of a number.
pub(crate) fn column_name(kinds: Kinds, book: &ClauseBook, j: usize, name: Name) -> ColumnName
    ensures { result ≡ column_name kinds (named_in book.now) j name }
{
    ColumnName {
        quantity: name.quantity,
        number: number_of(kinds, name),
        part: is_part(name.quantity).then(|| parts_before(book, name, j)),
    }
}

impl fmt::Display for ColumnName {
    fn fmt<W: fmt::Write>(&self, f: &mut fmt::Formatter<W>) -> fmt::Result {
        let quantity = self.quantity;
        write!(f, "{quantity:?}")?;
        if let Some(number) = self.number {
            write!(f, " {number}")?;
        }
        if let Some(part) = self.part {
            write!(f, ".{part}")?;
        }
        Ok(())
    }
}
