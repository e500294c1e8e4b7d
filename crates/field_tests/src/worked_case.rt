//! Every number of the worked case.
use crate::cases::WORKED_CASE;
use crate::plain::{Head, Pair, check_case};
use std::test::Fail;

#[rattlefmt::skip]
const HEADS: [Head; 8] = [
    (1, [1, 0], [0, 0, 0, 0, 0], 0),
    (2, [0, 0], [1_000_000, 1_000_000, 1_000_000, 1_000_000, 0], 0),
    (4, [0, 0], [0, 1_000_000, 1_000_000, 0, 0], 1),
    (4, [0, 0], [0, 1_000_000, 1_000_000, 0, 0], 1),
    (5, [0, 0], [0, 0, 0, 0, 0], 1),
    (6, [0, 0], [180_000, 360_000, 1_000_000, 0, 0], 1),
    (6, [1, 0], [0, 1_000_000, 1_000_000, 0, 0], 1),
    (15, [0, 0], [12_000, 1_000_000, 0, 0, 0], 0),
];

const PAIRS: [Pair; 5] = [
    (2, 0, 20_000, 200_000),
    (3, 0, 17_000, 400_000),
    (4, 0, 100_000, 500_000),
    (5, 0, 2_000, 10_000),
    (6, 0, 6_000, 50_000),
];

#[test]
fn reads_the_worked_case(rt: HostRuntime) -> Result<(), Fail> {
    check_case(&rt, rt.alloc(), &WORKED_CASE, &HEADS, &PAIRS)
}
