//! The fields of a listing.
use crate::edit::replaced;
use fields::fault::ReadError;
use listing_fields::read::read_listing;
use listing_fields::record::ListingRecord;
use std::alloc::Global;
use std::process::Abort;
use std::test::Fail;

/// A column from -5 to 7 at price 3, a switch, a row of two terms between -10 and 10, and a row of no terms of at least 5.
#[rattlefmt::skip]
const LISTING: [u8; 86] = [
    10, 0, 13, 255, 255, 255, 251, 0, 0, 0, 7, 0, 0, 0, 3, 0,
    10, 0, 13, 0, 0, 0, 0, 0, 0, 0, 1, 0, 0, 0, 0, 1,
    11, 0, 30, 16, 3, 255, 255, 255, 255, 255, 255, 255, 246, 0, 0, 0, 0, 0, 0, 0, 10, 0, 0, 0, 0, 0, 2, 0, 1, 255, 255, 255, 255,
    11, 0, 18, 0, 1, 0, 0, 0, 0, 0, 0, 0, 5, 0, 0, 0, 0, 0, 0, 0, 0,
];

/// Where its fields start, and where it ends.
const STARTS: [usize; 5] = [0, 16, 32, 65, 86];

fn outcome(heap: Global, bytes: &[u8]) -> Result<(u8, usize), Fail> {
    match read_listing(heap, bytes) {
        Ok(_) => Ok((0, 0)),
        Err(ReadError::Field(fault)) => Ok((fault.kind.number(), fault.offset)),
        Err(ReadError::Memory) => Err(Fail::new("no memory")),
    }
}

/// Checks the outcome with new bytes in the place of as many from a place on.
fn check_written(
    rt: &impl Abort,
    heap: Global,
    at: usize,
    new: &[u8],
    fault: (u8, usize),
) -> Result<(), Fail> {
    let copy = replaced(rt, heap, &LISTING, at, new.len(), new)?;
    assert_eq!(rt; outcome(heap, &copy)?, fault, "{new:?} at {at}");
    Ok(())
}

/// A place, the four-byte number written there, the fault's number, and the start of its field.
#[rattlefmt::skip]
const NUMBERS: [(usize, i32, u8, usize); 23] = [
    // The first column's limits and price.
    (3, -20_000_000, 0, 0), (3, -20_000_001, 5, 0), (3, 7, 0, 0), (3, 8, 5, 0),
    (7, 20_000_000, 0, 0), (7, 20_000_001, 5, 0), (7, -5, 0, 0), (7, -6, 5, 0),
    (11, 10_000_000, 0, 0), (11, 10_000_001, 5, 0), (11, -10_000_000, 0, 0), (11, -10_000_001, 5, 0),
    // The switch's limits.
    (19, -1, 5, 16), (19, 1, 0, 0), (23, 2, 5, 16), (23, 0, 0, 0), (23, -1, 5, 16),
    // The first coefficient.
    (55, 1_000_000, 0, 0), (55, 1_000_001, 5, 32), (55, -1_000_000, 0, 0), (55, -1_000_001, 5, 32), (55, 0, 8, 32), (55, 1, 0, 0),
];

/// The same with one byte.
#[rattlefmt::skip]
const BYTES: [(usize, u8, u8, usize); 17] = [
    // The switch bytes: the limits -5 and 7 are no switch's.
    (15, 1, 5, 0), (15, 2, 5, 0), (31, 0, 0, 0), (31, 2, 5, 16),
    // The code.
    (35, 0, 0, 0), (35, 10, 0, 0), (35, 19, 0, 0), (35, 20, 5, 32),
    // The side byte: an absent side is nought, and one that is present is in order.
    (36, 0, 5, 32), (36, 1, 5, 32), (36, 2, 5, 32), (36, 4, 5, 32), (69, 2, 5, 65), (69, 3, 5, 65),
    // The tag.
    (0, 9, 2, 0), (16, 12, 2, 16), (32, 1, 2, 32),
];

/// The same with two bytes: the columns of the terms, and the lengths.
#[rattlefmt::skip]
const SHORTS: [(usize, u16, u8, usize); 9] = [
    (53, 1, 8, 32), (53, 2, 6, 32), (59, 0, 8, 32), (59, 2, 6, 32), (59, 65_535, 6, 32),
    (1, 12, 4, 0), (1, 14, 4, 0), (66, 17, 4, 65), (66, 19, 1, 65),
];

/// The same with eight bytes: the sides of the first row, and an absent side.
#[rattlefmt::skip]
const SIDES: [(usize, i64, u8, usize); 10] = [
    (37, -10_000_000_000_000_000, 0, 0), (37, -10_000_000_000_000_001, 5, 32), (37, 10, 0, 0), (37, 11, 5, 32),
    (45, 10_000_000_000_000_000, 0, 0), (45, 10_000_000_000_000_001, 5, 32), (45, -10, 0, 0), (45, -11, 5, 32),
    (78, 1, 5, 65), (78, 0, 0, 0),
];

#[test]
fn judges_the_numbers_of_a_listing(rt: HostRuntime) -> Result<(), Fail> {
    for (at, value, number, place) in NUMBERS {
        check_written(&rt, rt.alloc(), at, &value.to_be_bytes(), (number, place))?;
    }
    for (at, value, number, place) in SIDES {
        check_written(&rt, rt.alloc(), at, &value.to_be_bytes(), (number, place))?;
    }
    Ok(())
}

#[test]
fn judges_the_bytes_of_a_listing(rt: HostRuntime) -> Result<(), Fail> {
    for (at, value, number, place) in BYTES {
        check_written(&rt, rt.alloc(), at, &[value], (number, place))?;
    }
    for (at, value, number, place) in SHORTS {
        check_written(&rt, rt.alloc(), at, &value.to_be_bytes(), (number, place))?;
    }
    // A missing column comes before a coefficient of nought, and a range before both.
    check_written(&rt, rt.alloc(), 53, &[0, 2, 0, 0, 0, 0], (6, 32))?;
    check_written(&rt, rt.alloc(), 53, &[0, 2, 127, 255, 255, 255], (5, 32))
}

#[test]
fn cuts_and_orders_a_listing(rt: HostRuntime) -> Result<(), Fail> {
    let heap = rt.alloc();
    for n in 0..LISTING.len() {
        let mut start = 0;
        for s in STARTS {
            if s <= n {
                start = s;
            }
        }
        let fault = if start == n { (0, 0) } else { (1, start) };
        assert_eq!(rt; outcome(heap, &LISTING[0..n])?, fault);
    }
    // A column after the rows.
    let late = replaced(&rt, heap, &LISTING, 86, 0, &LISTING[0..16])?;
    assert_eq!(rt; outcome(heap, &late)?, (3, 86));
    Ok(())
}

#[test]
fn reads_a_listing(rt: HostRuntime) -> Result<(), Fail> {
    let records = read_listing(rt.alloc(), &LISTING)?;
    assert!(rt; records.len() == 4);
    let ListingRecord::Column {
        lower,
        upper,
        price,
        switch,
    } = records[0]
    else {
        return Err(Fail::new("no column"));
    };
    assert_eq!(rt; (lower, upper, price, switch), (-5, 7, 3, false));
    let ListingRecord::Row {
        code,
        lower,
        upper,
        terms,
    } = records[2]
    else {
        return Err(Fail::new("no row"));
    };
    assert_eq!(rt;
        (code, lower, upper, terms.len()),
        (16, Some(-10), Some(10), 2)
    );
    let first = terms.get(0).ok_or("no term")?;
    let second = terms.get(1).ok_or("no term")?;
    assert_eq!(rt; (first.column, first.coefficient), (0, 2));
    assert_eq!(rt; (second.column, second.coefficient), (1, -1));
    assert_eq!(rt; terms.get(2), None);
    let ListingRecord::Row {
        code,
        lower,
        upper,
        terms,
    } = records[3]
    else {
        return Err(Fail::new("no row"));
    };
    assert_eq!(rt; (code, lower, upper, terms.len()), (0, Some(5), None, 0));
    Ok(())
}
