//! The length of each field, and its number of points or blocks.
use crate::edit::{check_outcome, check_replaced, line_case_bytes, replaced};
use std::alloc::Global;
use std::process::Abort;
use std::test::Fail;

/// The start of a field and a length that its tag cannot have.
#[rattlefmt::skip]
const WRONG: [(usize, u16); 38] = [
    // The period.
    (0, 0), (0, 4), (0, 7), (0, 9), (0, 16),
    // The nodes.
    (11, 0), (11, 8), (11, 15), (11, 17), (11, 24), (30, 15), (30, 17),
    // The line.
    (49, 0), (49, 23), (49, 24), (49, 32), (49, 44), (49, 47), (49, 49),
    // The energy offers.
    (100, 0), (100, 13), (100, 14), (100, 29), (100, 31), (133, 14), (133, 21), (133, 23),
    // The bid.
    (158, 0), (158, 2), (158, 17), (158, 19),
    // The regulation offer.
    (179, 0), (179, 14), (179, 29), (179, 31),
    // The requirement.
    (212, 0), (212, 4), (212, 7),
];

/// The start of a field, the bytes of its body before the points or blocks, and those of the points or blocks.
type Part = (usize, u16, usize);

const LINE: Part = (49, 24, 24);

const OFFER: Part = (133, 14, 8);

const BID: Part = (158, 2, 16);

const REGULATION: Part = (179, 14, 16);

/// A field, a number of points or blocks, and the fault's number; at 33 or 34 the low byte of the length alone would do.
#[rattlefmt::skip]
const COUNTS: [(Part, u16, u8); 26] = [
    (LINE, 0, 4), (LINE, 1, 4), (LINE, 2, 0), (LINE, 3, 0), (LINE, 20, 0), (LINE, 21, 0), (LINE, 22, 4), (LINE, 34, 4),
    (OFFER, 0, 4), (OFFER, 1, 0), (OFFER, 2, 0), (OFFER, 9, 0), (OFFER, 10, 0), (OFFER, 11, 4), (OFFER, 33, 4),
    (BID, 0, 4), (BID, 1, 0), (BID, 10, 0), (BID, 11, 4), (BID, 33, 4),
    (REGULATION, 0, 4), (REGULATION, 1, 0), (REGULATION, 5, 0), (REGULATION, 6, 4), (REGULATION, 10, 4), (REGULATION, 33, 4),
];

/// As many pairs: 0 and 0, 1 and 1, and so on.
fn pairs(heap: Global, count: u16) -> Result<Vec<u8>, Fail> {
    let mut made = Vec::new(heap);
    for i in 0..count {
        let [high, low] = i.to_be_bytes();
        made.extend_from_slice(&[0, 0, high, low, 0, 0, high, low])?;
    }
    Ok(made)
}

/// Checks the case with as many pairs for the points or blocks of a field.
fn check_count(
    rt: &impl Abort,
    heap: Global,
    (field, front, cut): Part,
    count: u16,
    number: u8,
) -> Result<(), Fail> {
    let length = front.wrapping_add(count.wrapping_mul(8)).to_be_bytes();
    let headed = replaced(
        rt,
        heap,
        line_case_bytes(),
        field.wrapping_add(1),
        2,
        &length,
    )?;
    let at = field.wrapping_add(3).wrapping_add(front as usize);
    let copy = replaced(rt, heap, &headed, at, cut, &pairs(heap, count)?)?;
    let place = if number == 0 { 0 } else { field };
    check_outcome(
        rt,
        heap,
        &copy,
        number,
        place,
        format_args!("{count} at {field}"),
    )
}

#[test]
fn refuses_wrong_lengths(rt: HostRuntime) -> Result<(), Fail> {
    for (field, length) in WRONG {
        check_replaced(
            &rt,
            rt.alloc(),
            field.wrapping_add(1),
            2,
            &length.to_be_bytes(),
            (4, field),
        )?;
    }
    // The requirement one byte longer.
    check_replaced(
        &rt,
        rt.alloc(),
        213,
        10,
        &[0, 9, 0, 0, 0, 0, 0, 0, 0, 0, 0],
        (4, 212),
    )
}

#[test]
fn counts_points_and_blocks(rt: HostRuntime) -> Result<(), Fail> {
    for (part, count, number) in COUNTS {
        check_count(&rt, rt.alloc(), part, count, number)?;
    }
    Ok(())
}
