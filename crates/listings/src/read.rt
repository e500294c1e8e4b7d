//! Reading a book from a listing.
ghost use Rattle.std.specs.Prelude.{◌≡◌, true, false, ◌⊎◌, map, MatchResult};
ghost use Rattle.listing_fields.specs.Meant.{meant};
ghost use Rattle.books.specs.Lists.{Lists};
ghost use Rattle.books.specs.Conditions.{sound};
ghost use Rattle.books.specs.declared.fault.BookFault.{BookFault};
ghost use Rattle.books.specs.declared.fault.BookFault.TheVariants.{TooLarge};
ghost use Rattle.books.specs.declared.fault.BookError.TheVariants.{Memory, Fault};
ghost use Rattle.listings.specs.Books.{listed_lists};
ghost use Rattle.listings.specs.Listed.{listing_of, given};
ghost use Rattle.listings.specs.Reading.{ToldFault, Told};

use crate::book::ListedBook;
use crate::gather::gather;
use books::fault::{BookError, BookFault};
use listing_fields::read::read_listing;
use listing_fields::record::ListingRecord;
use std::alloc::Global;
use stored_book::book::StoredBook;

/// The book of the lists that records give, which take a listing of this length.
/// Rows are gathered only from records that are not too many: 4,000 columns and 4,000 rows are 8,000.
#[tactic(auto, using(crate::proofs::Gathering::many_records))]
fn build(
    heap: Global,
    records: &[ListingRecord<'_>],
    length: usize,
) -> Result<ListedBook, BookError>
    ensures { MatchResult result
        (λ b. listed_lists b ≡ given (map meant records.now))
        (λ e. (e ≡ Memory) ⊎ ((e ≡ Fault (TooLarge length)) × (sound (given (map meant records.now)) ≡ false))) }
{
    if records.len() > 8000 {
        return Err(BookError::Fault(BookFault::TooLarge { length }));
    }
    let (columns, rows) = gather(heap, records)?;
    let book = StoredBook::new(columns, rows).ok_or(BookFault::TooLarge { length })?;
    Ok(ListedBook { book })
}

impl ListedBook {
    /// The book whose listing the input is, or what is wrong with the input.
    pub fn read(heap: Global, input: &[u8]) -> Result<ListedBook, BookError>
        ensures reads { MatchResult result
            (λ b. input.now ≡ listing_of (listed_lists b))
            (Told input.now) }
        ensures accepts { (b : Lists) → sound b ≡ true → input.now ≡ listing_of b →
            MatchResult result (λ v. listed_lists v ≡ b) (λ e. e ≡ Memory) }
        ensures refuses { (f : BookFault) → ToldFault input.now f →
            MatchResult result (λ _. ⊥) (λ e. (e ≡ Memory) ⊎ (e ≡ Fault f)) }
    {
        let records = read_listing(heap, input)?;
        build(heap, &records, input.len())
    }
}
