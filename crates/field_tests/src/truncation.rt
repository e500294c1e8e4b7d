//! Every beginning of a case is refused.
use crate::cases::{LINE_CASE_STARTS, WORKED_CASE, WORKED_CASE_STARTS};
use crate::edit::{check_outcome, line_case_bytes};
use std::alloc::Global;
use std::process::Abort;
use std::test::Fail;

/// The last of the starts that is not above a place.
fn start_at(starts: &[usize], place: usize) -> usize {
    starts
        .iter()
        .copied()
        .filter(|start| *start <= place)
        .last()
        .unwrap_or(0)
}

/// Checks each beginning: a field that is cut is past the end, and between two fields a tag is missing.
fn check_cuts(rt: &impl Abort, heap: Global, bytes: &[u8], starts: &[usize]) -> Result<(), Fail> {
    for n in 0..bytes.len() {
        let start = start_at(starts, n);
        let number = if n == start { 3 } else { 1 };
        check_outcome(
            rt,
            heap,
            &bytes[0..n],
            number,
            start,
            format_args!("{n} bytes"),
        )?;
    }
    Ok(())
}

#[test]
fn refuses_every_beginning(rt: HostRuntime) -> Result<(), Fail> {
    check_cuts(&rt, rt.alloc(), &WORKED_CASE, &WORKED_CASE_STARTS)?;
    check_cuts(&rt, rt.alloc(), line_case_bytes(), &LINE_CASE_STARTS)
}
