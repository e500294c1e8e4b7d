//! Records in plain numbers, held against tables.
use case_fields::read::read_case;
use case_fields::record::{Bid, CaseRecord, EnergyOffer, RegulationOffer};
use std::alloc::Global;
use std::process::Abort;
use std::test::Fail;

/// A record's tag, its unsigned numbers, its signed numbers, and how many points or blocks follow.
pub type Head = (u8, [u32; 2], [i32; 5], usize);

/// The place of a record, the place of a point or block in it, and its two numbers.
pub type Pair = (usize, usize, i32, i32);

/// The head of a record, with noughts where its kind has fewer numbers.
fn head(of: CaseRecord<'_>) -> Head {
    match of {
        CaseRecord::Period(period) => (1, [period.number, 0], [period.allowance, 0, 0, 0, 0], 0),
        CaseRecord::Node(node) => (
            2,
            [0, 0],
            [
                node.deficit_maximum,
                node.deficit_price,
                node.excess_maximum,
                node.excess_price,
                0,
            ],
            0,
        ),
        CaseRecord::Line(line) => (
            3,
            [line.start as u32, line.end as u32],
            [
                line.forward_limit,
                line.reverse_limit,
                line.admittance,
                line.shift,
                line.violation_price,
            ],
            line.points.len(),
        ),
        CaseRecord::EnergyOffer(offer) => (
            4,
            [offer.node as u32, 0],
            [
                offer.end_minimum,
                offer.end_maximum,
                offer.violation_price,
                0,
                0,
            ],
            offer.blocks.len(),
        ),
        CaseRecord::Bid(bid) => (5, [bid.node as u32, 0], [0, 0, 0, 0, 0], bid.blocks.len()),
        CaseRecord::RegulationOffer(offer) => (
            6,
            [offer.offer as u32, 0],
            [offer.minimum, offer.maximum, offer.violation_price, 0, 0],
            offer.blocks.len(),
        ),
        CaseRecord::Requirement(requirement) => (
            15,
            [0, 0],
            [requirement.requirement, requirement.deficit_price, 0, 0, 0],
            0,
        ),
    }
}

/// The numbers of a point or a block, or none past the end.
fn pair(of: CaseRecord<'_>, i: usize) -> Option<(i32, i32)> {
    match of {
        CaseRecord::Line(line) => line.points.get(i).map(|point| (point.flow, point.loss)),
        CaseRecord::EnergyOffer(EnergyOffer { blocks, .. })
        | CaseRecord::Bid(Bid { blocks, .. })
        | CaseRecord::RegulationOffer(RegulationOffer { blocks, .. }) => {
            blocks.get(i).map(|block| (block.price, block.maximum))
        }
        _ => None,
    }
}

/// Checks a record's head, and that nothing stands behind its last point or block.
fn check_head(rt: &impl Abort, of: CaseRecord<'_>, expected: Head) {
    assert_eq!(rt; head(of), expected);
    assert_eq!(rt; pair(of, expected.3), None);
    assert_eq!(rt; pair(of, usize::MAX), None);
}

/// Checks the heads of all records.
fn check_heads(rt: &impl Abort, all: &[CaseRecord<'_>], heads: &[Head]) {
    assert!(rt; all.len() == heads.len());
    for (record, head) in all.iter().zip(heads) {
        check_head(rt, *record, *head);
    }
}

/// Checks points and blocks.
fn check_pairs(rt: &impl Abort, all: &[CaseRecord<'_>], pairs: &[Pair]) {
    for (at, i, first, second) in pairs {
        assert!(rt; *at < all.len());
        assert_eq!(rt; pair(all[*at], *i), Some((*first, *second)));
    }
}

/// Checks that a case has records with these heads and with these points and blocks.
pub fn check_case(
    rt: &impl Abort,
    heap: Global,
    bytes: &[u8],
    heads: &[Head],
    pairs: &[Pair],
) -> Result<(), Fail> {
    let all = read_case(heap, bytes)?;
    check_heads(rt, &all, heads);
    check_pairs(rt, &all, pairs);
    Ok(())
}
