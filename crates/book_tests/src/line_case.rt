//! The columns and rows of a case with a line, written out from the tables of the model.
use crate::expected::{ColumnLine, RowLine, check_columns, check_rows};
use clause_book::book::ClauseBook;
use listings::book::ListedBook;
use listings::bytes::listing_bytes;
use std::test::Fail;

/// An allowance of 3, two nodes, a lossy line of three points from node 1 to node 0, an energy offer at each node, a bid at node 1, a regulation offer on energy offer 1 and a requirement.
#[rattlefmt::skip]
const CASE: [u8; 207] = [
    1, 0, 8, 0, 0, 0, 7, 0, 0, 0, 3,
    2, 0, 16, 0, 0, 0, 100, 0, 0, 35, 40, 0, 0, 0, 200, 0, 0, 31, 64,
    2, 0, 16, 0, 0, 1, 44, 0, 0, 27, 88, 0, 0, 1, 144, 0, 0, 23, 112,
    3, 0, 48, 0, 1, 0, 0, 0, 0, 1, 244, 255, 255, 253, 168, 0, 0, 0, 40, 255, 255, 255, 231, 0, 0, 19, 136,
    255, 255, 253, 68, 0, 0, 0, 70, 0, 0, 0, 0, 0, 0, 0, 8, 0, 0, 3, 132, 0, 0, 0, 0,
    4, 0, 30, 0, 1, 0, 0, 0, 10, 0, 0, 4, 76, 0, 0, 15, 160, 0, 0, 0, 50, 0, 0, 3, 232, 255, 255, 255, 196, 0, 0, 0, 20,
    4, 0, 22, 0, 0, 0, 0, 0, 30, 0, 0, 4, 176, 0, 0, 11, 184, 0, 0, 0, 70, 0, 0, 5, 20,
    5, 0, 10, 0, 1, 0, 0, 0, 80, 0, 0, 5, 120,
    6, 0, 22, 0, 1, 0, 0, 0, 40, 0, 0, 5, 220, 0, 0, 7, 208, 0, 0, 0, 90, 0, 0, 0, 160,
    15, 0, 8, 0, 0, 0, 170, 0, 0, 3, 232,
];

#[rattlefmt::skip]
const COLUMNS: [ColumnLine; 34] = [
    // node 0: 0 Injection, 1 Angle, 2 Deficit, 3 Excess
    (-20_000_000, 20_000_000, 0, false), (0, 0, 0, false), (0, 100, -9_000, false), (0, 200, -8_000, false),
    // node 1: 4 Injection, 5 Angle, 6 Deficit, 7 Excess
    (-20_000_000, 20_000_000, 0, false), (-1_000_000, 1_000_000, 0, false), (0, 300, -7_000, false), (0, 400, -6_000, false),
    // line 0: 8 Flow, 9 Loss, 10 OverForward, 11 OverReverse, 12 ShortW, 13 OverW, 14 to 16 Weights
    (-1_000_000, 1_000_000, 0, false), (0, 1_000_000, 0, false),
    (0, 1_000_000, -5_000, false), (0, 1_000_000, -5_000, false), (0, 1_000_000, -5_000, false), (0, 1_000_000, -5_000, false),
    (0, 100_000, 0, false), (0, 100_000, 0, false), (0, 100_000, 0, false),
    // energy offer 0: 17 Generation, 18 OverUp, 19 OverDown, 20 and 21 its blocks
    (0, 1_000_000, 0, false), (0, 1_000_000, -4_000, false), (0, 1_000_000, -4_000, false), (0, 1_000, -50, false), (0, 20, 60, false),
    // energy offer 1: 22 Generation, 23 OverUp, 24 OverDown, 25 its block
    (0, 1_000_000, 0, false), (0, 1_000_000, -3_000, false), (0, 1_000_000, -3_000, false), (0, 1_300, -70, false),
    // bid 0: 26 Purchase, 27 its block
    (0, 1_000_000, 0, false), (0, 1_400, 80, false),
    // regulation offer 0: 28 Regulation, 29 Switch, 30 OverReg, 31 ShortReg, 32 its block
    (0, 1_000_000, 0, false), (0, 1, 0, true), (0, 1_000_000, -2_000, false), (0, 1_000_000, -2_000, false), (0, 160, -90, false),
    // requirement: 33 ShortRequirement
    (0, 170, -1_000, false),
];

#[rattlefmt::skip]
const ROWS: [RowLine; 22] = [
    // node 0, where the line ends
    (1, Some(-3), Some(3), &[(0, 2), (8, 2), (9, -1)]),
    (2, Some(0), Some(0), &[(0, 1), (2, -1), (3, 1), (22, -1)]),
    // node 1, where the line starts
    (1, Some(-3), Some(3), &[(4, 2), (8, -2), (9, -1)]),
    (2, Some(0), Some(0), &[(4, 1), (6, -1), (7, 1), (17, -1), (26, 1)]),
    // line 0: admittance 40, shift -25
    (3, Some(-600), None, &[(8, 1), (11, 1)]),
    (4, None, Some(500), &[(8, 1), (10, -1)]),
    (5, Some(-1_003), Some(-997), &[(1, 40), (5, -40), (8, 1_000)]),
    // points of -700 losing 70, 0 losing 8 and 900 losing 0: a term of nought is left out
    (6, Some(-3), Some(3), &[(8, 100_000), (12, -100_000), (13, 100_000), (14, 700), (16, -900)]),
    (7, Some(-3), Some(3), &[(9, 100_000), (14, -70), (15, -8)]),
    (8, Some(100_000), Some(100_000), &[(14, 1), (15, 1), (16, 1)]),
    // energy offer 0
    (9, Some(0), Some(0), &[(17, 1), (20, -1), (21, -1)]),
    (12, None, Some(1_100), &[(17, 1), (18, -1)]),
    (13, Some(10), None, &[(17, 1), (19, 1)]),
    // energy offer 1
    (9, Some(0), Some(0), &[(22, 1), (25, -1)]),
    (12, None, Some(1_200), &[(22, 1), (23, -1)]),
    (13, Some(30), None, &[(22, 1), (24, 1)]),
    // bid 0
    (14, Some(0), Some(0), &[(26, 1), (27, -1)]),
    // regulation offer 0, from 40 to 1,500, on energy offer 1
    (15, Some(0), Some(0), &[(28, 1), (32, -1)]),
    (16, None, Some(1_001_500), &[(22, 1), (28, 1), (29, 1_000_000), (30, -1)]),
    (17, Some(-999_960), None, &[(22, 1), (28, -1), (29, -1_000_000), (31, 1)]),
    (18, None, Some(0), &[(28, 1), (29, -1_000_000)]),
    // requirement
    (19, Some(170), None, &[(28, 1), (33, 1)]),
];

#[test]
fn columns_and_rows_of_a_case_with_a_line(rt: HostRuntime) -> Result<(), Fail> {
    let book = ClauseBook::open(rt.alloc(), &CASE)?;
    check_columns(&rt, &book, &COLUMNS);
    check_rows(&rt, &book, &ROWS);
    Ok(())
}

#[test]
fn the_same_when_listed_and_read_again(rt: HostRuntime) -> Result<(), Fail> {
    let heap = rt.alloc();
    let bytes = listing_bytes(heap, &ClauseBook::open(heap, &CASE)?)?;
    let book = ListedBook::read(heap, &bytes)?;
    check_columns(&rt, &book, &COLUMNS);
    check_rows(&rt, &book, &ROWS);
    Ok(())
}
