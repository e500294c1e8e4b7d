//! The range of each number of a case.
use crate::edit::check_replaced;
use std::test::Fail;

/// For each number its place, the lowest and the highest value that are accepted, and the start of its field.
#[rattlefmt::skip]
const RANGES: [(usize, i32, i32, usize); 45] = [
    // The period's allowance.
    (7, 0, 1_000_000, 0),
    // The first node's deficit maximum and price, excess maximum and price.
    (14, 0, 1_000_000, 11),
    (18, 0, 10_000_000, 11),
    (22, 0, 1_000_000, 11),
    (26, 0, 10_000_000, 11),
    // The second node's.
    (33, 0, 1_000_000, 30),
    (37, 0, 10_000_000, 30),
    (41, 0, 1_000_000, 30),
    (45, 0, 10_000_000, 30),
    // The line's forward limit, reverse limit, admittance, shift and violation price.
    (56, 0, 1_000_000, 49),
    (60, -1_000_000, 0, 49),
    (64, 1, 1_000_000, 49),
    (68, -1_000_000, 1_000_000, 49),
    (72, 0, 10_000_000, 49),
    // Its points' flows, each between its neighbours, and losses.
    (76, -1_000_000, -1, 49),
    (80, 0, 1_000_000, 49),
    (84, -90_011, 95_012, 49),
    (88, 0, 1_000_000, 49),
    (92, 1, 1_000_000, 49),
    (96, 0, 1_000_000, 49),
    // The first offer's end minimum, which may pass the end maximum, end maximum and violation price.
    (105, 0, 1_000_000, 100),
    (109, 0, 1_000_000, 100),
    (113, 0, 10_000_000, 100),
    // Its blocks' prices, and the maxima, which sum to 1,000,000 at the highest.
    (117, -10_000_000, 10_000_000, 100),
    (121, 0, 599_980, 100),
    (125, -10_000_000, 10_000_000, 100),
    (129, 0, 699_982, 100),
    // The second offer's end minimum, end maximum, violation price, and one block.
    (138, 0, 1_000_000, 133),
    (142, 0, 1_000_000, 133),
    (146, 0, 10_000_000, 133),
    (150, -10_000_000, 10_000_000, 133),
    (154, 0, 1_000_000, 133),
    // The bid's blocks.
    (163, -10_000_000, 10_000_000, 158),
    (167, 0, 939_972, 158),
    (171, -10_000_000, 10_000_000, 158),
    (175, 0, 899_974, 158),
    // The regulation offer's minimum, maximum and violation price.
    (184, 0, 1_000_000, 179),
    (188, 0, 1_000_000, 179),
    (192, 0, 10_000_000, 179),
    // Its blocks.
    (196, -10_000_000, 10_000_000, 179),
    (200, 0, 989_965, 179),
    (204, -10_000_000, 10_000_000, 179),
    (208, 0, 979_967, 179),
    // The requirement and its price.
    (215, 0, 1_000_000, 212),
    (219, 0, 10_000_000, 212),
];

/// A place, a number written there, the fault's number, and the start of its field.
#[rattlefmt::skip]
const SINGLE: [(usize, i32, u8, usize); 9] = [
    // The period's number, which may have any bits.
    (3, 0, 0, 0), (3, 1, 0, 0), (3, i32::MIN, 0, 0), (3, -1, 0, 0),
    // Flows in range that do not rise.
    (76, 50_000, 5, 49), (84, -90_013, 5, 49), (84, 95_014, 5, 49), (92, -1, 5, 49), (92, -90_013, 5, 49),
];

#[test]
fn keeps_each_range(rt: HostRuntime) -> Result<(), Fail> {
    let heap = rt.alloc();
    for (at, lowest, highest, field) in RANGES {
        for value in [lowest, highest] {
            check_replaced(&rt, heap, at, 4, &value.to_be_bytes(), (0, 0))?;
        }
        for value in [
            lowest.wrapping_sub(1),
            highest.wrapping_add(1),
            i32::MIN,
            i32::MAX,
        ] {
            check_replaced(&rt, heap, at, 4, &value.to_be_bytes(), (5, field))?;
        }
    }
    Ok(())
}

#[test]
fn takes_any_period_number_and_rising_flows(rt: HostRuntime) -> Result<(), Fail> {
    for (at, value, number, place) in SINGLE {
        check_replaced(
            &rt,
            rt.alloc(),
            at,
            4,
            &value.to_be_bytes(),
            (number, place),
        )?;
    }
    Ok(())
}
