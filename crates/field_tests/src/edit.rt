//! Edited copies of a case, and what reading them gives.
use crate::cases::LINE_CASE;
use case_fields::read::read_case;
use fields::fault::ReadError;
use std::alloc::Global;
use std::fmt::Display;
use std::process::Abort;
use std::test::Fail;

/// The case with a line, which the edits start from.
pub fn line_case_bytes() -> &'static [u8] {
    &LINE_CASE
}

/// What reading gives: nought twice where the case is accepted, else the fault's number and place.
fn outcome(heap: Global, bytes: &[u8]) -> Result<(u8, usize), Fail> {
    match read_case(heap, bytes) {
        Ok(_) => Ok((0, 0)),
        Err(ReadError::Field(fault)) => Ok((fault.kind.number(), fault.offset)),
        Err(ReadError::Memory) => Err(Fail::new("no memory")),
    }
}

/// Checks what reading gives: nought twice where the case is accepted, else the fault's number and place. A failure tells what was read.
pub fn check_outcome(
    rt: &impl Abort,
    heap: Global,
    bytes: &[u8],
    number: u8,
    place: usize,
    what: impl Display + Drop,
) -> Result<(), Fail> {
    assert_eq!(rt; outcome(heap, bytes)?, (number, place), "{what}");
    Ok(())
}

/// A copy in which new bytes stand for as many as `cut` from a place on.
pub fn replaced(
    rt: &impl Abort,
    heap: Global,
    bytes: &[u8],
    at: usize,
    cut: usize,
    new: &[u8],
) -> Result<Vec<u8>, Fail> {
    assert!(rt; at <= bytes.len());
    let (front, rest) = bytes.split_at(at);
    assert!(rt; cut <= rest.len());
    let (_, back) = rest.split_at(cut);
    let mut copy = Vec::new(heap);
    copy.extend_from_slice(front)?;
    copy.extend_from_slice(new)?;
    copy.extend_from_slice(back)?;
    Ok(copy)
}

/// Checks the outcome of the case with new bytes for as many as `cut` from a place on.
pub fn check_replaced(
    rt: &impl Abort,
    heap: Global,
    at: usize,
    cut: usize,
    new: &[u8],
    (number, place): (u8, usize),
) -> Result<(), Fail> {
    let copy = replaced(rt, heap, line_case_bytes(), at, cut, new)?;
    check_outcome(
        rt,
        heap,
        &copy,
        number,
        place,
        format_args!("{new:?} at {at}"),
    )
}
