//! How many blocks and points stand in so many bytes.
use case_fields::part::{Blocks, Points};
use fields::sequence::{Element, Sequence};
use std::process::Abort;

/// A number of bytes, and how many whole pairs of numbers they hold.
const SIZES: [(usize, usize); 5] = [(0, 0), (7, 0), (8, 1), (15, 1), (16, 2)];

/// Checks how many elements there are, and that none stands behind the last.
fn check_count<T: Element + Drop>(rt: &impl Abort, elements: Sequence<'_, T>, count: usize) {
    assert_eq!(rt; elements.len(), count);
    assert!(rt; elements.get(count).is_none());
}

#[test]
fn counts_whole_pairs(rt: HostRuntime) {
    let zeros = [0; 16];
    for (size, count) in SIZES {
        assert!(rt; size <= 16);
        let bytes = &zeros[0..size];
        check_count(&rt, Blocks::new(bytes), count);
        check_count(&rt, Points::new(bytes), count);
    }
}
