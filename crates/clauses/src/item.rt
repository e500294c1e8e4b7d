//! The items that clauses are made of.
ghost use Rattle.std.specs.Prelude.{◌≡◌, ◌<◌};
ghost use Rattle.clauses.specs.Clauses.{the, item as item_of};

use crate::sum::{Ends, Factor, Item, Pick};
use case_columns::kinds::Span;
use case_columns::name::Quantity;

/// A number times the columns of a quantity that some records have, where they count.
pub(crate) fn item(c: i32, quantity: Quantity, span: Span, ends: Ends) -> Item
    ensures { result ≡ item_of c (record { quantity = quantity; span = span; ends = ends }) }
{
    Item {
        factor: Factor::Number(c),
        pick: Pick {
            quantity,
            span,
            ends,
        },
    }
}

/// The columns of a quantity that the record at a place has.
pub(crate) fn the(quantity: Quantity, place: usize) -> Pick
    requires { place < 18446744073709551615 }
    ensures { result ≡ the quantity place }
{
    Pick {
        quantity,
        span: Span {
            first: place,
            past: place + 1,
        },
        ends: Ends::Any,
    }
}
