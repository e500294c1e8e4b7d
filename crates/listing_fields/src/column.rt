//! The field of a column.
ghost use Rattle.std.specs.Prelude.{◌≡◌, ℕ, true, false, List, length, MatchOption, MatchResult};
ghost use Rattle.fields.specs.Faults.{First};
ghost use Rattle.fields.specs.Fields.{Begins};
ghost use Rattle.fields.specs.Files.{checks};
ghost use Rattle.listing_fields.specs.Entries.{Entry};
ghost use Rattle.listing_fields.specs.Encoding.{body, Written};
ghost use Rattle.listing_fields.specs.Tests.{follows, sized, is_switch};
ghost use Rattle.listing_fields.specs.Listings.{listing_format};
ghost use Rattle.listing_fields.specs.Meant.{switch_byte, meant};
ghost use Rattle.listing_fields.specs.Reading.{column_written, Turned, Reads};

use crate::range::{are_limits, is_price};
use crate::record::ListingRecord;
use fields::fault::FaultKind;
use fields::number::Number;

/// A column as it is written.
// Kept: the length of a field is judged before its numbers, so the byte of the switch stands here until it is read for what it means.
#[derive(Clone, Copy)]
struct ColumnField {
    lower: i32,
    upper: i32,
    price: i32,
    switch: u8,
}

impl ColumnField {
    /// The column that is all of a body; none exactly when the body's length is not that of a column.
    fn read(bytes: &[u8]) -> Option<ColumnField>
        ensures { MatchOption result
            (sized 10 (length bytes.now) ≡ false)
            (λ c. (sized 10 (length bytes.now) ≡ true) × (body (column_written c) ≡ bytes.now) × Written (column_written c)) }
    {
        let (lower, rest) = i32::split(bytes)?;
        let (upper, rest) = i32::split(rest)?;
        let (price, rest) = i32::split(rest)?;
        let (switch, rest) = u8::split(rest)?;
        rest.is_empty().then_some(ColumnField {
            lower,
            upper,
            price,
            switch,
        })
    }
}

/// Whether the byte of a switch says that there is one.
/// None exactly when it is neither nought nor 1, or there is one with its limits not within 0 and 1.
fn switch_of(byte: u8, lower: i32, upper: i32) -> Option<bool>
    ensures { MatchOption result
        (is_switch byte lower upper ≡ false)
        (λ s. (is_switch byte lower upper ≡ true) × (switch_byte s ≡ byte)) }
{
    match byte {
        0 => Some(false),
        1 if 0 <= lower && upper <= 1 => Some(true),
        _ => None,
    }
}

impl<'a> TryFrom<ColumnField> for ListingRecord<'a> {
    type Error = FaultKind;

    ghost try_from_gives = { λ c r. Turned (column_written c) r };

    fn try_from(column: ColumnField) -> Result<ListingRecord<'a>, FaultKind> {
        let ColumnField {
            lower,
            upper,
            price,
            switch,
        } = column;
        if !are_limits(lower, upper) || !is_price(price) {
            return Err(FaultKind::OutOfRange);
        }
        let switch = switch_of(switch, lower, upper).ok_or(FaultKind::OutOfRange)?;
        Ok(ListingRecord::Column {
            lower,
            upper,
            price,
            switch,
        })
    }
}

/// The column in a body, or the lowest fault that applies.
pub(crate) fn judge_column(bytes: &[u8]) -> Result<ListingRecord<'_>, FaultKind>
    ensures { (es : List Entry) (bs rest : List ℕ) → Begins bs 10 bytes.now rest → follows es 10 ≡ true →
        MatchResult result (λ v. Reads es bs rest (meant v)) (First (checks listing_format es bs)) }
{
    let column = ColumnField::read(bytes).ok_or(FaultKind::BadLength)?;
    ListingRecord::try_from(column)
}
