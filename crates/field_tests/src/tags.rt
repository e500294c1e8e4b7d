//! Tags that a case does not have, or not there.
use crate::edit::check_replaced;
use std::test::Fail;

/// The start of a field, the tag written there, and the fault's number.
#[rattlefmt::skip]
const TAGS: [(usize, u8, u8); 41] = [
    // The first field.
    (0, 0, 2), (0, 7, 2), (0, 14, 2), (0, 16, 2), (0, 20, 2), (0, 255, 2),
    // A field in the middle.
    (100, 0, 2), (100, 7, 2), (100, 14, 2), (100, 16, 2), (100, 20, 2), (100, 21, 2), (100, 255, 2),
    (100, 1, 3), (100, 2, 3), (100, 3, 4), (100, 5, 4), (100, 15, 4),
    // The last field.
    (212, 0, 2), (212, 1, 3), (212, 2, 3), (212, 3, 3), (212, 4, 3), (212, 5, 3), (212, 6, 4),
    (212, 7, 2), (212, 8, 2), (212, 9, 2), (212, 10, 2), (212, 11, 2), (212, 12, 2), (212, 13, 2),
    (212, 14, 2), (212, 15, 0), (212, 16, 2), (212, 17, 2), (212, 20, 2), (212, 21, 2), (212, 127, 2),
    (212, 128, 2), (212, 255, 2),
];

#[test]
fn knows_the_tags(rt: HostRuntime) -> Result<(), Fail> {
    for (field, tag, number) in TAGS {
        let place = if number == 0 { 0 } else { field };
        check_replaced(&rt, rt.alloc(), field, 1, &[tag], (number, place))?;
    }
    Ok(())
}
