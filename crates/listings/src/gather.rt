//! The columns and the rows that the records of a listing give.
ghost use Rattle.std.specs.Prelude.{◌≡◌, map, IfOk};
ghost use Rattle.listing_fields.specs.Terms.{terms_in};
ghost use Rattle.listing_fields.specs.Meant.{meant};
ghost use Rattle.stored_book.specs.Stored.{stored_lists};
ghost use Rattle.listings.specs.Listed.{given};

use books::part::Column;
use listing_fields::record::ListingRecord;
use listing_fields::term::{Term, Terms};
use std::alloc::{AllocError, Global};
use stored_book::row::StoredRow;

/// The terms of a row, in one allocation of their number.
fn owned_terms(heap: Global, terms: Terms<'_>) -> Result<Vec<Term>, AllocError>
    ensures { IfOk result (λ v. v.items ≡ terms_in terms.entry.bytes.now) }
{
    let mut owned = Vec::with_capacity(heap, terms.len())?;
    owned.extend(terms.iter())?;
    Ok(owned)
}

/// The columns and the rows that records give.
pub(crate) fn gather(
    heap: Global,
    records: &[ListingRecord<'_>],
) -> Result<(Vec<Column>, Vec<StoredRow>), AllocError>
    ensures { IfOk result (λ p. stored_lists p.0.items p.1.items ≡ given (map meant records.now)) }
{
    let mut columns = Vec::new(heap);
    let mut rows = Vec::new(heap);
    for next in records {
        match *next {
            ListingRecord::Column {
                lower,
                upper,
                price,
                switch,
            } => columns.push(Column {
                lower,
                upper,
                price,
                switch,
            })?,
            ListingRecord::Row {
                code,
                lower,
                upper,
                terms,
            } => rows.push(StoredRow {
                code,
                lower,
                upper,
                terms: owned_terms(heap, terms)?,
            })?,
        }
    }
    Ok((columns, rows))
}
