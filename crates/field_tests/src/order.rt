//! The order of the fields, and those that must be there.
use crate::cases::LINE_CASE_STARTS;
use crate::edit::{check_outcome, line_case_bytes};
use std::alloc::Global;
use std::process::Abort;
use std::test::Fail;

/// The bytes of a field: period 0, nodes 1 and 2, line 3, energy offers 4 and 5, bid 6, regulation offer 7, requirement 8.
fn field(rt: &impl Abort, number: usize) -> &'static [u8] {
    let bytes = line_case_bytes();
    assert!(rt; number < 9);
    let start = LINE_CASE_STARTS[number];
    let end = if number < 8 {
        LINE_CASE_STARTS[number + 1]
    } else {
        bytes.len()
    };
    assert!(rt; start <= end && end <= bytes.len());
    &bytes[start..end]
}

/// Checks the outcome of these fields one after the other.
fn check_order(
    rt: &impl Abort,
    heap: Global,
    numbers: &[usize],
    number: u8,
    place: usize,
) -> Result<(), Fail> {
    let mut made = Vec::new(heap);
    for i in numbers {
        made.extend_from_slice(field(rt, *i))?;
    }
    check_outcome(rt, heap, &made, number, place, format_args!("{numbers:?}"))
}

#[test]
fn keeps_the_order_of_tags(rt: HostRuntime) -> Result<(), Fail> {
    let heap = rt.alloc();
    check_order(&rt, heap, &[0, 1, 2, 3, 4, 5, 6, 7, 8], 0, 0)?;
    check_order(&rt, heap, &[0, 1, 2, 3, 3, 4, 4, 5, 6, 6, 7, 8], 0, 0)?;
    // A node after a line, an offer and the requirement.
    check_order(&rt, heap, &[0, 1, 2, 3, 1, 8], 3, 100)?;
    check_order(&rt, heap, &[0, 1, 5, 2, 8], 3, 55)?;
    check_order(&rt, heap, &[0, 1, 8, 2], 3, 41)?;
    // A line after an offer, an offer after a bid, a bid after a regulation offer.
    check_order(&rt, heap, &[0, 1, 2, 5, 3, 8], 3, 74)?;
    check_order(&rt, heap, &[0, 1, 2, 6, 5, 8], 3, 70)?;
    check_order(&rt, heap, &[0, 1, 2, 4, 5, 7, 6, 8], 3, 140)?;
    // A regulation offer after the requirement.
    check_order(&rt, heap, &[0, 1, 2, 4, 5, 8, 7], 3, 118)?;
    // A second period and a second requirement.
    check_order(&rt, heap, &[0, 0, 1, 8], 3, 11)?;
    check_order(&rt, heap, &[0, 1, 0, 8], 3, 30)?;
    check_order(&rt, heap, &[0, 1, 8, 8], 3, 41)
}

#[test]
fn misses_period_node_and_requirement(rt: HostRuntime) -> Result<(), Fail> {
    let heap = rt.alloc();
    check_order(&rt, heap, &[0, 1, 8], 0, 0)?;
    check_order(&rt, heap, &[], 3, 0)?;
    check_order(&rt, heap, &[0], 3, 11)?;
    check_order(&rt, heap, &[1], 3, 19)?;
    check_order(&rt, heap, &[8], 3, 11)?;
    check_order(&rt, heap, &[0, 1], 3, 30)?;
    check_order(&rt, heap, &[0, 8], 3, 22)?;
    check_order(&rt, heap, &[1, 8], 3, 30)?;
    check_order(&rt, heap, &[1, 2, 3, 4, 5, 6, 7, 8], 3, 212)?;
    check_order(&rt, heap, &[0, 1, 2, 3, 4, 5, 6, 7], 3, 212)?;
    // A period after a node falls, and a case without nodes has none to refer to.
    check_order(&rt, heap, &[1, 0, 8], 3, 19)?;
    check_order(&rt, heap, &[0, 5, 8], 6, 11)
}
