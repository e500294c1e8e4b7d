//! The field of a row.
ghost use Rattle.std.specs.Prelude.{◌≡◌, ℕ, true, false, List, length, MatchOption, MatchResult};
ghost use Rattle.fields.specs.Faults.{First};
ghost use Rattle.fields.specs.Fields.{Begins};
ghost use Rattle.fields.specs.Files.{checks};
ghost use Rattle.listing_fields.specs.Entries.{Entry};
ghost use Rattle.listing_fields.specs.Encoding.{body, Written};
ghost use Rattle.listing_fields.specs.Tests.{follows, sized, column_count};
ghost use Rattle.listing_fields.specs.Listings.{listing_format};
ghost use Rattle.listing_fields.specs.Meant.{meant};
ghost use Rattle.listing_fields.specs.Reading.{row_written, Turned, Reads};

use crate::record::ListingRecord;
use crate::sides::sides_of;
use crate::term::{Terms, are_in_range, refer, rise};
use fields::fault::FaultKind;
use fields::number::Number;

/// A row as it is written.
// Kept: the length of a field is judged before its numbers, so the byte of the sides stands here until it is read for what it means.
#[derive(Clone, Copy)]
struct RowField<'a> {
    code: u8,
    side: u8,
    lower: i64,
    upper: i64,
    terms: Terms<'a>,
}

impl<'a> RowField<'a> {
    /// The row that is all of a body; none exactly when the body's length is not that of a row.
    fn read(bytes: &'a [u8]) -> Option<RowField<'a>>
        ensures { MatchOption result
            (sized 11 (length bytes.now) ≡ false)
            (λ w. (sized 11 (length bytes.now) ≡ true) × (body (row_written w) ≡ bytes.now) × Written (row_written w)) }
    {
        let (code, rest) = u8::split(bytes)?;
        let (side, rest) = u8::split(rest)?;
        let (lower, rest) = i64::split(rest)?;
        let (upper, rest) = i64::split(rest)?;
        if rest.len() % 6 != 0 {
            return None;
        }
        Some(RowField {
            code,
            side,
            lower,
            upper,
            terms: Terms::new(rest),
        })
    }
}

impl<'a> TryFrom<RowField<'a>> for ListingRecord<'a> {
    type Error = FaultKind;

    ghost try_from_gives = { λ w r. Turned (row_written w) r };

    fn try_from(row: RowField<'a>) -> Result<ListingRecord<'a>, FaultKind> {
        let (lower, upper) = sides_of(row.side, row.lower, row.upper).ok_or(FaultKind::OutOfRange)?;
        if row.code > 19 || !are_in_range(row.terms.iter()) {
            return Err(FaultKind::OutOfRange);
        }
        Ok(ListingRecord::Row {
            code: row.code,
            lower,
            upper,
            terms: row.terms,
        })
    }
}

/// The row in a body after so many columns, or the lowest fault that applies.
pub(crate) fn judge_row(columns: usize, bytes: &[u8]) -> Result<ListingRecord<'_>, FaultKind>
    ensures { (es : List Entry) (bs rest : List ℕ) → Begins bs 11 bytes.now rest → follows es 11 ≡ true → columns ≡ column_count es →
        MatchResult result (λ v. Reads es bs rest (meant v)) (First (checks listing_format es bs)) }
{
    let row = RowField::read(bytes).ok_or(FaultKind::BadLength)?;
    let record = ListingRecord::try_from(row)?;
    if !refer(columns, row.terms.iter()) {
        return Err(FaultKind::BadReference);
    }
    if !rise(row.terms.iter()) {
        return Err(FaultKind::TermOrder);
    }
    Ok(record)
}
