//! Listings with as many columns, rows and terms as a book may have, and one more.
use books::book::Book;
use books::fault::{BookError, BookFault};
use listings::book::ListedBook;
use std::alloc::Global;
use std::test::Fail;

/// A column from 0 to 1 at no price, 16 bytes.
const COLUMN: [u8; 16] = [10, 0, 13, 0, 0, 0, 0, 0, 0, 0, 1, 0, 0, 0, 0, 0];

/// A row of no terms of at least 0, 21 bytes.
#[rattlefmt::skip]
const ROW: [u8; 21] = [11, 0, 18, 0, 1, 0, 0, 0, 0, 0, 0, 0, 0, 0, 0, 0, 0, 0, 0, 0, 0];

/// So many columns and rows of no terms.
fn many(heap: Global, columns: usize, rows: usize) -> Result<Vec<u8>, Fail> {
    let mut bytes = Vec::new(heap);
    for _ in 0..columns {
        bytes.extend_from_slice(&COLUMN)?;
    }
    for _ in 0..rows {
        bytes.extend_from_slice(&ROW)?;
    }
    Ok(bytes)
}

/// As many columns, and a row with the coefficient 1 at each.
fn wide(heap: Global, terms: u16) -> Result<Vec<u8>, Fail> {
    let mut bytes = many(heap, terms as usize, 0)?;
    let length = 18u16.saturating_add(terms.saturating_mul(6));
    bytes.push(11)?;
    bytes.extend_from_slice(&length.to_be_bytes())?;
    bytes.extend_from_slice(&ROW[3..21])?;
    for column in 0..terms {
        bytes.extend_from_slice(&column.to_be_bytes())?;
        bytes.extend_from_slice(&[0, 0, 0, 1])?;
    }
    Ok(bytes)
}

/// Reads a listing, and gives the numbers of its columns and rows.
fn size(heap: Global, bytes: &[u8]) -> Result<(usize, usize), BookError> {
    let book = ListedBook::read(heap, bytes)?;
    Ok((book.column_count(), book.row_count()))
}

fn too_large(length: usize) -> Result<(usize, usize), BookError> {
    Err(BookError::Fault(BookFault::TooLarge { length }))
}

#[test]
fn as_many_columns_and_rows_as_there_may_be(rt: HostRuntime) -> Result<(), Fail> {
    let heap = rt.alloc();
    assert_eq!(rt; size(heap, &many(heap, 4_000, 4_000)?), Ok((4_000, 4_000)));
    assert_eq!(rt; size(heap, &many(heap, 4_001, 0)?), too_large(64_016));
    assert_eq!(rt; size(heap, &many(heap, 0, 4_001)?), too_large(84_021));
    Ok(())
}

#[test]
fn as_many_terms_as_there_may_be(rt: HostRuntime) -> Result<(), Fail> {
    let heap = rt.alloc();
    assert_eq!(rt; size(heap, &wide(heap, 500)?), Ok((500, 1)));
    // 501 columns of 16 bytes, and a row of 21 bytes and six for each term
    assert_eq!(rt; size(heap, &wide(heap, 501)?), too_large(11_043));
    Ok(())
}
