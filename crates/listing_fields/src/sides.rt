//! The sides of a row, as a listing writes them.
ghost use Rattle.std.specs.Prelude.{◌≡◌, true, false, MatchOption};
ghost use Rattle.listing_fields.specs.Tests.{are_sides};
ghost use Rattle.listing_fields.specs.Meant.{side_byte, side_number};

use crate::range::is_side;

/// The byte of the sides that a row has.
pub fn side_byte(lower: Option<i64>, upper: Option<i64>) -> u8
    ensures { result ≡ side_byte lower upper }
{
    match (lower, upper) {
        (None, None) => 0,
        (Some(_), None) => 1,
        (None, Some(_)) => 2,
        (Some(_), Some(_)) => 3,
    }
}

/// The number of a side, nought where it is absent.
pub fn side_number(side: Option<i64>) -> i64
    ensures { result ≡ side_number side }
{
    side.unwrap_or(0)
}

/// The sides that a side byte and two numbers mean; none exactly when these are out of range or out of order.
pub(crate) fn sides_of(byte: u8, lower: i64, upper: i64) -> Option<(Option<i64>, Option<i64>)>
    ensures { MatchOption result
        (are_sides byte lower upper ≡ false)
        (λ p. (are_sides byte lower upper ≡ true) × (side_byte p.0 p.1 ≡ byte) × (side_number p.0 ≡ lower) × (side_number p.1 ≡ upper)) }
{
    match byte {
        1 if is_side(lower) && upper == 0 => Some((Some(lower), None)),
        2 if lower == 0 && is_side(upper) => Some((None, Some(upper))),
        3 if is_side(lower) && is_side(upper) && lower <= upper => Some((Some(lower), Some(upper))),
        _ => None,
    }
}
