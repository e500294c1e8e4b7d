//! Cases that are no book, and cases as large as a book may be.
use books::book::Book;
use books::fault::BookError;
use books::part::Place;
use clause_book::book::ClauseBook;
use std::alloc::Global;
use std::process::Abort;
use std::test::Fail;

const PERIOD: [u8; 11] = [1, 0, 8, 0, 0, 0, 1, 0, 0, 0, 0];

#[rattlefmt::skip]
const NODE: [u8; 19] = [2, 0, 16, 0, 0, 0, 1, 0, 0, 0, 1, 0, 0, 0, 1, 0, 0, 0, 1];

/// A deficit maximum of 1,000,001.
#[rattlefmt::skip]
const UNFIT_NODE: [u8; 19] = [2, 0, 16, 0, 15, 66, 65, 0, 0, 0, 1, 0, 0, 0, 1, 0, 0, 0, 1];

/// A bid at node 0 of one block, of two and of three.
const BIDS: [&[u8]; 3] = [
    &[5, 0, 10, 0, 0, 0, 0, 0, 1, 0, 0, 0, 1],
    &[
        5, 0, 18, 0, 0, 0, 0, 0, 1, 0, 0, 0, 1, 0, 0, 0, 1, 0, 0, 0, 1,
    ],
    &[
        5, 0, 26, 0, 0, 0, 0, 0, 1, 0, 0, 0, 1, 0, 0, 0, 1, 0, 0, 0, 1, 0, 0, 0, 1, 0, 0, 0, 1,
    ],
];

const REQUIREMENT: [u8; 11] = [15, 0, 8, 0, 0, 0, 1, 0, 0, 0, 1];

/// A period, so many nodes, so many times a bid, and a requirement.
fn case(heap: Global, nodes: usize, bids: usize, bid: &[u8]) -> Result<Vec<u8>, Fail> {
    let mut bytes = Vec::new(heap);
    bytes.extend_from_slice(&PERIOD)?;
    for _ in 0..nodes {
        bytes.extend_from_slice(&NODE)?;
    }
    for _ in 0..bids {
        bytes.extend_from_slice(bid)?;
    }
    bytes.extend_from_slice(&REQUIREMENT)?;
    Ok(bytes)
}

/// Checks the numbers of columns and rows of a case.
fn check_size(
    rt: &impl Abort,
    heap: Global,
    bytes: &[u8],
    columns: usize,
    rows: usize,
) -> Result<(), Fail> {
    let book = ClauseBook::open(heap, bytes)?;
    assert_eq!(rt; (book.column_count(), book.row_count()), (columns, rows));
    Ok(())
}

/// Checks that a case is refused for a fault at an offset.
fn check_refused(
    rt: &impl Abort,
    heap: Global,
    bytes: &[u8],
    number: u8,
    offset: usize,
) -> Result<(), Fail> {
    match ClauseBook::open(heap, bytes) {
        Err(BookError::Fault(fault)) => {
            assert_eq!(rt; fault.number(), number);
            assert_eq!(rt; fault.place(), Place::Offset(offset));
            Ok(())
        }
        Err(BookError::Memory) => Err(Fail::new("no memory")),
        Ok(_) => Err(Fail::new("not refused")),
    }
}

#[test]
fn faults_of_fields(rt: HostRuntime) -> Result<(), Fail> {
    let heap = rt.alloc();
    check_refused(&rt, heap, &[], 3, 0)?;
    check_refused(&rt, heap, &PERIOD, 3, 11)?;
    check_refused(&rt, heap, &UNFIT_NODE, 5, 0)
}

#[test]
fn as_many_columns_as_a_case_may_give(rt: HostRuntime) -> Result<(), Fail> {
    let heap = rt.alloc();
    // four columns a node, one of the requirement, and a bid's blocks and one more
    check_size(&rt, heap, &case(heap, 999, 1, BIDS[1])?, 4_000, 2_000)?;
    check_refused(&rt, heap, &case(heap, 999, 1, BIDS[2])?, 7, 19_032)
}

#[test]
fn as_many_terms_as_a_case_may_give(rt: HostRuntime) -> Result<(), Fail> {
    let heap = rt.alloc();
    // the purchases of all bids, and three more terms, stand in D.16.1.2
    check_size(&rt, heap, &case(heap, 1, 497, BIDS[0])?, 999, 500)?;
    check_refused(&rt, heap, &case(heap, 1, 498, BIDS[0])?, 7, 6_515)
}
