//! The listing of a book, in a buffer of its own.
ghost use Rattle.std.specs.Prelude.{◌≡◌, IfOk};
ghost use Rattle.listings.specs.Listed.{listing_of};

use crate::write::{listing_length, put_listing};
use books::book::Book;
use std::alloc::{AllocError, Global};

/// The bytes of the listing of a book.
pub fn listing_bytes<B: Book>(heap: Global, book: &B) -> Result<Vec<u8>, AllocError>
    ensures { IfOk result (λ v. v.items ≡ listing_of (B.Book.meaning book.now)) }
{
    let mut bytes = vec![in heap; 0u8; listing_length(book)]?;
    put_listing(book, &mut bytes);
    Ok(bytes)
}
