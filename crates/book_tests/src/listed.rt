//! Listings read and written.
use crate::expected::{ColumnLine, RowLine, check_columns, check_rows};
use books::book::Book;
use books::fault::{BookError, BookFault};
use listings::book::ListedBook;
use listings::write::write_listing;
use std::test::Fail;

/// A column from -5 to 7 at price 3, a switch, a row of two terms between -10 and 10, and a row of no terms of at least 5.
#[rattlefmt::skip]
const LISTING: [u8; 86] = [
    10, 0, 13, 255, 255, 255, 251, 0, 0, 0, 7, 0, 0, 0, 3, 0,
    10, 0, 13, 0, 0, 0, 0, 0, 0, 0, 1, 0, 0, 0, 0, 1,
    11, 0, 30, 16, 3, 255, 255, 255, 255, 255, 255, 255, 246, 0, 0, 0, 0, 0, 0, 0, 10, 0, 0, 0, 0, 0, 2, 0, 1, 255, 255, 255, 255,
    11, 0, 18, 0, 1, 0, 0, 0, 0, 0, 0, 0, 5, 0, 0, 0, 0, 0, 0, 0, 0,
];

const COLUMNS: [ColumnLine; 2] = [(-5, 7, 3, false), (0, 1, 0, true)];

const ROWS: [RowLine; 2] = [
    (16, Some(-10), Some(10), &[(0, 2), (1, -1)]),
    (0, Some(5), None, &[]),
];

#[test]
fn reads_a_listing(rt: HostRuntime) -> Result<(), Fail> {
    let book = ListedBook::read(rt.alloc(), &LISTING)?;
    check_columns(&rt, &book, &COLUMNS);
    check_rows(&rt, &book, &ROWS);
    Ok(())
}

#[test]
fn writes_a_listing(rt: HostRuntime) -> Result<(), Fail> {
    let book = ListedBook::read(rt.alloc(), &LISTING)?;
    let mut buffer = [9u8; 90];
    assert_eq!(rt; write_listing(&book, &mut buffer), Ok(86));
    assert_eq!(rt; &buffer[0..86], &LISTING[0..86]);
    assert_eq!(rt; &buffer[86..90], &[9u8, 9, 9, 9][0..4]);
    Ok(())
}

#[test]
fn leaves_a_short_buffer(rt: HostRuntime) -> Result<(), Fail> {
    let book = ListedBook::read(rt.alloc(), &LISTING)?;
    let mut buffer = [9u8; 85];
    let short = Err(BookFault::ShortBuffer { needed: 86 });
    assert_eq!(rt; write_listing(&book, &mut buffer), short);
    for byte in &buffer {
        assert_eq!(rt; *byte, 9);
    }
    Ok(())
}

#[test]
fn lists_nothing(rt: HostRuntime) -> Result<(), Fail> {
    let book = ListedBook::read(rt.alloc(), &[])?;
    check_columns(&rt, &book, &[]);
    check_rows(&rt, &book, &[]);
    assert_eq!(rt; write_listing(&book, &mut []), Ok(0));
    Ok(())
}
