//! What lines, offers and bids refer to.
use crate::edit::check_replaced;
use std::test::Fail;

/// A place, the two-byte number written there, the fault's number, and the start of its field.
#[rattlefmt::skip]
const REFERENCES: [(usize, u16, u8, usize); 23] = [
    // The line's start, where its end is node 0.
    (52, 0, 6, 49), (52, 1, 0, 0), (52, 2, 6, 49), (52, 65_535, 6, 49),
    // The line's end, where its start is node 1.
    (54, 0, 0, 0), (54, 1, 6, 49), (54, 2, 6, 49), (54, 65_535, 6, 49),
    // The first offer's node.
    (103, 0, 0, 0), (103, 1, 0, 0), (103, 2, 6, 100), (103, 65_535, 6, 100),
    // The second offer's node.
    (136, 1, 0, 0), (136, 2, 6, 133), (136, 65_535, 6, 133),
    // The bid's node.
    (161, 0, 0, 0), (161, 1, 0, 0), (161, 2, 6, 158), (161, 65_535, 6, 158),
    // The regulation offer's energy offer.
    (182, 0, 0, 0), (182, 1, 0, 0), (182, 2, 6, 179), (182, 65_535, 6, 179),
];

/// A regulation offer of one block on the first energy offer.
#[rattlefmt::skip]
const ON_FIRST: [u8; 25] = [6, 0, 22, 0, 0, 0, 0, 0, 1, 0, 0, 0, 2, 0, 0, 0, 3, 0, 0, 0, 4, 0, 0, 0, 5];

/// The same on the second energy offer, which has a regulation offer.
#[rattlefmt::skip]
const ON_SECOND: [u8; 25] = [6, 0, 22, 0, 1, 0, 0, 0, 1, 0, 0, 0, 2, 0, 0, 0, 3, 0, 0, 0, 4, 0, 0, 0, 5];

#[test]
fn follows_references(rt: HostRuntime) -> Result<(), Fail> {
    for (at, value, number, place) in REFERENCES {
        check_replaced(
            &rt,
            rt.alloc(),
            at,
            2,
            &value.to_be_bytes(),
            (number, place),
        )?;
    }
    Ok(())
}

#[test]
fn takes_one_regulation_offer_an_energy_offer(rt: HostRuntime) -> Result<(), Fail> {
    // Before the one that is there, and behind it.
    check_replaced(&rt, rt.alloc(), 179, 0, &ON_FIRST, (0, 0))?;
    check_replaced(&rt, rt.alloc(), 212, 0, &ON_FIRST, (0, 0))?;
    check_replaced(&rt, rt.alloc(), 179, 0, &ON_SECOND, (6, 204))?;
    check_replaced(&rt, rt.alloc(), 212, 0, &ON_SECOND, (6, 212))
}
