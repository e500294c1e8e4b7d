//! The text of cases and refusals.
use case_text::outcome::{INPUT_LIMIT, outcome_of};
use std::test::Fail;

/// Two nodes, a line of three points from node 1 to node 0, a bid of two blocks.
const LINED: [u8; 132] = [
    1, 0, 8, 0, 0, 0, 48, 0, 0, 0, 7, 2, 0, 16, 0, 0, 0, 1, 0, 0, 0, 2, 0, 0, 0, 3, 0, 0, 0, 4, 2,
    0, 16, 0, 0, 0, 5, 0, 0, 0, 6, 0, 0, 0, 7, 0, 0, 0, 8, 3, 0, 48, 0, 1, 0, 0, 0, 0, 2, 88, 255,
    255, 254, 12, 0, 0, 0, 40, 255, 255, 255, 253, 0, 0, 0, 9, 255, 255, 254, 12, 0, 0, 0, 20, 0,
    0, 0, 0, 0, 0, 0, 0, 0, 0, 2, 88, 0, 0, 0, 30, 5, 0, 18, 0, 1, 255, 255, 255, 244, 0, 0, 0, 10,
    0, 0, 0, 11, 0, 0, 0, 20, 15, 0, 8, 0, 0, 0, 0, 0, 0, 0, 0,
];

#[test]
fn shows_a_case_with_a_line(rt: HostRuntime) -> Result<(), Fail> {
    let heap = rt.alloc();
    let text = outcome_of(heap, &LINED)?.to_string(heap)?;
    assert_eq!(rt;
        text.as_str(),
        "period 48: allowance 7 in the unit of each widened row\nnode 0: deficit up to 1 kW at 2 cents per MWh; excess up to 3 kW at 4 cents per MWh\nnode 1: deficit up to 5 kW at 6 cents per MWh; excess up to 7 kW at 8 cents per MWh\nline 0: from node 1 to node 0; flow -500 to 600 kW; admittance 40 W/µrad; shift -3 µrad; violation at 9 cents per MWh; point of -500 kW losing 20 kW; point of 0 kW losing 0 kW; point of 600 kW losing 30 kW\nbid 0: at node 1; block of 10 kW at -12 cents per MWh; block of 20 kW at 11 cents per MWh\nrequirement: 0 kW; deficit at 0 cents per MWh\nnodes 2, lines 1, energy offers 0, bids 1, regulation offers 0\n"
    );
    Ok(())
}

#[test]
fn shows_refusals(rt: HostRuntime) -> Result<(), Fail> {
    let heap = rt.alloc();
    let mut long = Vec::new(heap);
    for _ in 0..INPUT_LIMIT {
        long.push(0u8)?;
    }
    let at_limit = outcome_of(heap, long.as_slice())?.to_string(heap)?;
    assert_eq!(rt; at_limit.as_str(), "case refused 2 offset 0\n");
    long.push(0u8)?;
    let above = outcome_of(heap, long.as_slice())?.to_string(heap)?;
    assert_eq!(rt; above.as_str(), "input refused\n");
    let cut = outcome_of(heap, &LINED[0..30])?.to_string(heap)?;
    assert_eq!(rt; cut.as_str(), "case refused 3 offset 30\n");
    let empty = outcome_of(heap, &[])?.to_string(heap)?;
    assert_eq!(rt; empty.as_str(), "case refused 3 offset 0\n");
    Ok(())
}
