//! Which of several faults is reported.
use crate::edit::{check_outcome, line_case_bytes, replaced};
use std::alloc::Global;
use std::process::Abort;
use std::test::Fail;

/// A place, a width in bytes, and the number written there.
type Edit = (usize, usize, i32);

/// No edit.
const NONE: Edit = (0, 0, 0);

/// Two edits, how many bytes are kept, the fault's number, and its place.
type Row = (Edit, Edit, usize, u8, usize);

/// One field with several faults.
#[rattlefmt::skip]
const ONE_FIELD: [Row; 32] = [
    // Past the end, and an unknown tag, a falling tag, a wrong length, a number out of range, no such node.
    ((212, 1, 7), (213, 2, 9), 223, 1, 212),
    ((212, 1, 2), (213, 2, 9), 223, 1, 212),
    ((213, 2, 9), NONE, 223, 1, 212),
    ((215, 4, -1), NONE, 222, 1, 212),
    ((161, 2, 9), NONE, 178, 1, 158),
    // Past the end by the high byte of the length.
    ((1, 2, 264), NONE, 223, 1, 0),
    // A cut head with an unknown tag, and one with a falling tag.
    ((212, 1, 0), NONE, 213, 1, 212),
    ((212, 1, 1), NONE, 214, 1, 212),
    // An unknown tag, and it falls, or has no body, a number out of range, no such node.
    ((212, 1, 0), NONE, 223, 2, 212),
    ((100, 1, 0), NONE, 223, 2, 100),
    ((212, 1, 16), (213, 2, 0), 223, 2, 212),
    ((212, 1, 20), (215, 4, -1), 223, 2, 212),
    ((158, 1, 7), (161, 2, 9), 223, 2, 158),
    // A falling or second tag, and a wrong length, a number out of range, no such node.
    ((212, 1, 2), NONE, 223, 3, 212),
    ((11, 1, 1), NONE, 223, 3, 11),
    ((179, 1, 4), (184, 4, -1), 223, 3, 179),
    ((179, 1, 4), (182, 2, 9), 223, 3, 179),
    // A wrong length, and a number out of range, no such node or offer.
    ((12, 2, 17), (14, 4, -1), 223, 4, 11),
    ((50, 2, 49), (52, 2, 9), 223, 4, 49),
    ((101, 2, 29), (103, 2, 9), 223, 4, 100),
    ((159, 2, 17), (161, 2, 9), 223, 4, 158),
    ((180, 2, 29), (182, 2, 9), 223, 4, 179),
    // A number out of range, and no such node or offer.
    ((52, 2, 9), (56, 4, -1), 223, 5, 49),
    ((52, 2, 9), (96, 4, -1), 223, 5, 49),
    ((54, 2, 1), (96, 4, -1), 223, 5, 49),
    ((54, 2, 1), (92, 4, 0), 223, 5, 49),
    ((103, 2, 9), (105, 4, -1), 223, 5, 100),
    ((103, 2, 9), (129, 4, 699_983), 223, 5, 100),
    ((161, 2, 9), (163, 4, 10_000_001), 223, 5, 158),
    ((161, 2, 9), (175, 4, -1), 223, 5, 158),
    ((182, 2, 9), (184, 4, -1), 223, 5, 179),
    ((182, 2, 9), (208, 4, -1), 223, 5, 179),
];

/// Several fields with a fault, of which the first counts.
#[rattlefmt::skip]
const FIELDS: [Row; 13] = [
    ((161, 2, 9), (213, 2, 9), 223, 6, 158),
    ((182, 2, 9), NONE, 213, 6, 179),
    ((52, 2, 9), (105, 4, -1), 223, 6, 49),
    ((103, 2, 9), (133, 1, 7), 223, 6, 100),
    ((14, 4, -1), (33, 4, -1), 223, 5, 11),
    ((7, 4, -1), (50, 2, 49), 223, 5, 0),
    ((129, 4, -1), (212, 1, 1), 223, 5, 100),
    ((134, 2, 23), (158, 1, 7), 223, 4, 133),
    ((100, 1, 2), (212, 1, 7), 223, 3, 100),
    ((100, 1, 2), NONE, 222, 3, 100),
    ((11, 1, 7), NONE, 222, 2, 11),
    // A fault before a missing requirement.
    ((138, 4, -1), NONE, 212, 5, 133),
    ((182, 2, 9), NONE, 212, 6, 179),
];

/// A copy with the low bytes of a number written at a place.
fn edited(
    rt: &impl Abort,
    heap: Global,
    bytes: &[u8],
    (at, width, value): Edit,
) -> Result<Vec<u8>, Fail> {
    assert!(rt; width <= 4);
    replaced(
        rt,
        heap,
        bytes,
        at,
        width,
        &value.to_be_bytes()[4 - width..4],
    )
}

/// Checks the outcome of the case with two edits, of which so many bytes are kept. A failure tells the number of the row.
fn check_row(
    rt: &impl Abort,
    heap: Global,
    i: usize,
    (first, second, kept, number, place): Row,
) -> Result<(), Fail> {
    let once = edited(rt, heap, line_case_bytes(), first)?;
    let twice = edited(rt, heap, &once, second)?;
    assert!(rt; kept <= twice.len(), "row {i}");
    check_outcome(
        rt,
        heap,
        &twice[0..kept],
        number,
        place,
        format_args!("row {i}"),
    )
}

/// Checks each row.
fn check_rows(rt: &impl Abort, heap: Global, rows: &[Row]) -> Result<(), Fail> {
    for (i, row) in rows.iter().enumerate() {
        check_row(rt, heap, i, *row)?;
    }
    Ok(())
}

#[test]
fn reports_the_lowest_fault_of_a_field(rt: HostRuntime) -> Result<(), Fail> {
    check_rows(&rt, rt.alloc(), &ONE_FIELD)
}

#[test]
fn reports_the_first_field_with_a_fault(rt: HostRuntime) -> Result<(), Fail> {
    check_rows(&rt, rt.alloc(), &FIELDS)
}
