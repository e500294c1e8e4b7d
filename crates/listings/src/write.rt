//! Writing the listing of a book.
ghost use Rattle.std.specs.Prelude.{◌≡◌, ◌≤◌, length};
ghost use Rattle.listings.specs.Listed.{listing_of};
ghost use Rattle.listings.specs.Writing.{Wrote, ListedInto};

use crate::put::Writer;
use books::book::Book;
use books::fault::BookFault;
use books::walk::Rows;

/// The length of the listing: a column takes 16 bytes, a row 21 and then six a term.
pub(crate) fn listing_length<B: Book>(book: &B) -> usize
    ensures { result ≡ length (listing_of (B.Book.meaning book.now)) }
{
    let mut length = 16 * book.column_count();
    for row in Rows::of(book) {
        length += 21 + 6 * row.terms;
    }
    length
}

/// Writes the listing of a book in front of a buffer that has room for it, and returns its length.
pub(crate) fn put_listing<B: Book>(book: &B, out: &mut [u8]) -> usize
    requires { length (listing_of (B.Book.meaning book.now)) ≤ length out.old }
    ensures { Wrote out.old 0 (listing_of (B.Book.meaning book.now)) out.new result }
{
    let mut writer = Writer { out, at: 0 };
    writer.put_columns(book);
    writer.put_rows(book);
    writer.at
}

/// Writes the listing of a book in front of the buffer, and returns its length.
/// A buffer that is shorter stays as it was.
pub fn write_listing<B: Book>(book: &B, out: &mut [u8]) -> Result<usize, BookFault>
    ensures { ListedInto (listing_of (B.Book.meaning book.now)) out.old out.new result }
{
    let needed = listing_length(book);
    if out.len() < needed {
        return Err(BookFault::ShortBuffer { needed });
    }
    Ok(put_listing(book, out))
}
