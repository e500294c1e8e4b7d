//! The text of cases and refusals.
use model_text::outcome::{INPUT_LIMIT, outcome_of};
use std::test::Fail;

/// Two nodes, a line of three points from node 1 to node 0, a bid of two blocks.
#[rattlefmt::skip]
const LINED: [u8; 132] = [
    1, 0, 8, 0, 0, 0, 48, 0, 0, 0, 7,
    2, 0, 16, 0, 0, 0, 1, 0, 0, 0, 2, 0, 0, 0, 3, 0, 0, 0, 4,
    2, 0, 16, 0, 0, 0, 5, 0, 0, 0, 6, 0, 0, 0, 7, 0, 0, 0, 8,
    3, 0, 48, 0, 1, 0, 0, 0, 0, 2, 88, 255, 255, 254, 12, 0, 0, 0, 40, 255, 255, 255, 253, 0, 0, 0, 9, 255, 255, 254, 12, 0, 0, 0, 20, 0, 0, 0, 0, 0, 0, 0, 0, 0, 0, 2, 88, 0, 0, 0, 30,
    5, 0, 18, 0, 1, 255, 255, 255, 244, 0, 0, 0, 10, 0, 0, 0, 11, 0, 0, 0, 20,
    15, 0, 8, 0, 0, 0, 0, 0, 0, 0, 0,
];

/// What is shown of it, line by line.
#[rattlefmt::skip]
const LINES: [&str; 40] = [
    "period 48: allowance 7 in the unit of each widened row",
    "node 0: deficit up to 1 kW at 2 cents per MWh; excess up to 3 kW at 4 cents per MWh",
    "node 1: deficit up to 5 kW at 6 cents per MWh; excess up to 7 kW at 8 cents per MWh",
    "line 0: from node 1 to node 0; flow -500 to 600 kW; admittance 40 W/µrad; shift -3 µrad; violation at 9 cents per MWh; point of -500 kW losing 20 kW; point of 0 kW losing 0 kW; point of 600 kW losing 30 kW",
    "bid 0: at node 1; block of 10 kW at -12 cents per MWh; block of 20 kW at 11 cents per MWh",
    "requirement: 0 kW; deficit at 0 cents per MWh",
    "nodes 2, lines 1, energy offers 0, bids 1, regulation offers 0",
    "column 0 Injection 0: -20000000 to 20000000, price 0",
    "column 1 Angle 0: 0 to 0, price 0",
    "column 2 Deficit 0: 0 to 1, price -2",
    "column 3 Excess 0: 0 to 3, price -4",
    "column 4 Injection 1: -20000000 to 20000000, price 0",
    "column 5 Angle 1: -1000000 to 1000000, price 0",
    "column 6 Deficit 1: 0 to 5, price -6",
    "column 7 Excess 1: 0 to 7, price -8",
    "column 8 Flow 0: -1000000 to 1000000, price 0",
    "column 9 Loss 0: 0 to 1000000, price 0",
    "column 10 OverForward 0: 0 to 1000000, price -9",
    "column 11 OverReverse 0: 0 to 1000000, price -9",
    "column 12 ShortW 0: 0 to 1000000, price -9",
    "column 13 OverW 0: 0 to 1000000, price -9",
    "column 14 Weight 0.0: 0 to 100000, price 0",
    "column 15 Weight 0.1: 0 to 100000, price 0",
    "column 16 Weight 0.2: 0 to 100000, price 0",
    "column 17 Purchase 0: 0 to 1000000, price 0",
    "column 18 BidBlock 0.0: 0 to 10, price -12",
    "column 19 BidBlock 0.1: 0 to 20, price 11",
    "column 20 ShortRequirement: 0 to 0, price 0",
    "row 0 D.16.1.1: -7 <= 2 Injection 0 + 2 Flow 0 - 1 Loss 0 <= 7",
    "row 1 D.16.1.2: 0 <= 1 Injection 0 - 1 Deficit 0 + 1 Excess 0 <= 0",
    "row 2 D.16.1.1: -7 <= 2 Injection 1 - 2 Flow 0 - 1 Loss 0 <= 7",
    "row 3 D.16.1.2: 0 <= 1 Injection 1 - 1 Deficit 1 + 1 Excess 1 + 1 Purchase 0 <= 0",
    "row 4 D.16.2.1: -500 <= 1 Flow 0 + 1 OverReverse 0",
    "row 5 D.16.2.2: 1 Flow 0 - 1 OverForward 0 <= 600",
    "row 6 D.16.2.3: -127 <= 40 Angle 0 - 40 Angle 1 + 1000 Flow 0 <= -113",
    "row 7 D.16.3.1: -7 <= 100000 Flow 0 - 100000 ShortW 0 + 100000 OverW 0 + 500 Weight 0.0 - 600 Weight 0.2 <= 7",
    "row 8 D.16.3.2: -7 <= 100000 Loss 0 - 20 Weight 0.0 - 30 Weight 0.2 <= 7",
    "row 9 D.16.3.3: 100000 <= 1 Weight 0.0 + 1 Weight 0.1 + 1 Weight 0.2 <= 100000",
    "row 10 D.15.2.2: 0 <= 1 Purchase 0 - 1 BidBlock 0.0 - 1 BidBlock 0.1 <= 0",
    "row 11 D.18.2.1: 0 <= 1 ShortRequirement",
];

#[test]
fn shows_a_case_with_a_line(rt: HostRuntime) -> Result<(), Fail> {
    let heap = rt.alloc();
    let text = outcome_of(heap, &LINED)?.to_string(heap)?;
    let mut expected = String::new(heap);
    for line in LINES {
        expected.push_str(line)?;
        expected.push_str("\n")?;
    }
    assert_eq!(rt; text.as_str(), expected.as_str());
    Ok(())
}

#[test]
fn shows_refusals(rt: HostRuntime) -> Result<(), Fail> {
    let heap = rt.alloc();
    let mut long = Vec::new(heap);
    for _ in 0..INPUT_LIMIT {
        long.push(0u8)?;
    }
    let at_limit = outcome_of(heap, long.as_slice())?.to_string(heap)?;
    assert_eq!(rt; at_limit.as_str(), "case refused 2 offset 0\n");
    long.push(0u8)?;
    let above = outcome_of(heap, long.as_slice())?.to_string(heap)?;
    assert_eq!(rt; above.as_str(), "input refused\n");
    let cut = outcome_of(heap, &LINED[0..30])?.to_string(heap)?;
    assert_eq!(rt; cut.as_str(), "case refused 3 offset 30\n");
    let empty = outcome_of(heap, &[])?.to_string(heap)?;
    assert_eq!(rt; empty.as_str(), "case refused 3 offset 0\n");
    Ok(())
}
