//! The ranges of a record's numbers.
ghost use Rattle.std.specs.Prelude.{◌≡◌};
ghost use Rattle.case_fields.specs.Kinds.{both};
ghost use Rattle.case_fields.specs.Parts.{blocks_in, points_in};
ghost use Rattle.case_fields.specs.Meant.{meant, period_meant, node_meant, line_meant, energy_offer_meant, bid_meant, regulation_offer_meant, requirement_meant};
ghost use Rattle.case_fields.specs.Tests.{is_quantity, is_reverse_limit, is_block_price, is_penalty, is_admittance, is_signed_quantity, blocks_fit, points_fit, in_range};

use crate::part::{Block, Blocks, Point, Points};
use crate::record::{
    Bid, CaseRecord, EnergyOffer, Line, Node, Period, RegulationOffer, Requirement,
};

// Kept: six tests that differ in their constants, since each name is a word of the rules, and a constant cannot hold a range (its value would be a call).
/// Whether a number is a quantity, in kilowatts.
fn is_quantity(z: i32) -> bool
    ensures { result ≡ is_quantity z }
{
    (0..=1_000_000).contains(&z)
}

/// Whether a number is a limit on the flow against a line's direction.
fn is_reverse_limit(z: i32) -> bool
    ensures { result ≡ is_reverse_limit z }
{
    (-1_000_000..=0).contains(&z)
}

/// Whether a number is a block's price, in cents per MWh.
fn is_block_price(z: i32) -> bool
    ensures { result ≡ is_block_price z }
{
    (-10_000_000..=10_000_000).contains(&z)
}

/// Whether a number is the price of a violation, a deficit or an excess.
fn is_penalty(z: i32) -> bool
    ensures { result ≡ is_penalty z }
{
    (0..=10_000_000).contains(&z)
}

/// Whether a number is a line's admittance.
fn is_admittance(z: i32) -> bool
    ensures { result ≡ is_admittance z }
{
    (1..=1_000_000).contains(&z)
}

/// Whether a number is a line's shift or a point's flow.
fn is_signed_quantity(z: i32) -> bool
    ensures { result ≡ is_signed_quantity z }
{
    (-1_000_000..=1_000_000).contains(&z)
}

impl Block {
    /// Whether its numbers are in range.
    fn is_in_range(self) -> bool
        ensures { result ≡ both (is_block_price self.price) (is_quantity self.maximum) }
    {
        is_block_price(self.price) && is_quantity(self.maximum)
    }
}

impl Point {
    /// Whether its numbers are in range.
    fn is_in_range(self) -> bool
        ensures { result ≡ both (is_signed_quantity self.flow) (is_quantity self.loss) }
    {
        is_signed_quantity(self.flow) && is_quantity(self.loss)
    }
}

/// Whether each block is in range and the maxima sum to a quantity.
fn blocks_in_range(blocks: Blocks<'_>) -> bool
    ensures { result ≡ blocks_fit (blocks_in blocks.entry.bytes.now) }
{
    let mut sum = 0u32;
    for block in blocks.iter() {
        if !block.is_in_range() {
            return false;
        }
        sum += block.maximum as u32;
        if sum > 1_000_000 {
            return false;
        }
    }
    true
}

/// Whether each point is in range and the flows rise strictly.
fn points_in_range(points: Points<'_>) -> bool
    ensures { result ≡ points_fit (points_in points.entry.bytes.now) }
{
    let mut last = None;
    for point in points.iter() {
        if !point.is_in_range() || last.is_some_and(|flow| point.flow <= flow) {
            return false;
        }
        last = Some(point.flow);
    }
    true
}

impl Period {
    /// Whether its numbers are in range.
    fn is_in_range(self) -> bool
        ensures { result ≡ in_range (period_meant self) }
    {
        is_quantity(self.allowance)
    }
}

impl Node {
    /// Whether its numbers are in range.
    fn is_in_range(self) -> bool
        ensures { result ≡ in_range (node_meant self) }
    {
        is_quantity(self.deficit_maximum)
            && is_penalty(self.deficit_price)
            && is_quantity(self.excess_maximum)
            && is_penalty(self.excess_price)
    }
}

impl Line<'_> {
    /// Whether its numbers are in range, and its points in order.
    fn is_in_range(self) -> bool
        ensures { result ≡ in_range (line_meant self.entry) }
    {
        is_quantity(self.forward_limit)
            && is_reverse_limit(self.reverse_limit)
            && is_admittance(self.admittance)
            && is_signed_quantity(self.shift)
            && is_penalty(self.violation_price)
            && points_in_range(self.points)
    }
}

impl EnergyOffer<'_> {
    /// Whether its numbers and blocks are in range.
    fn is_in_range(self) -> bool
        ensures { result ≡ in_range (energy_offer_meant self.entry) }
    {
        is_quantity(self.end_minimum)
            && is_quantity(self.end_maximum)
            && is_penalty(self.violation_price)
            && blocks_in_range(self.blocks)
    }
}

impl Bid<'_> {
    /// Whether its blocks are in range.
    fn is_in_range(self) -> bool
        ensures { result ≡ in_range (bid_meant self.entry) }
    {
        blocks_in_range(self.blocks)
    }
}

impl RegulationOffer<'_> {
    /// Whether its numbers and blocks are in range.
    fn is_in_range(self) -> bool
        ensures { result ≡ in_range (regulation_offer_meant self.entry) }
    {
        is_quantity(self.minimum)
            && is_quantity(self.maximum)
            && is_penalty(self.violation_price)
            && blocks_in_range(self.blocks)
    }
}

impl Requirement {
    /// Whether its numbers are in range.
    fn is_in_range(self) -> bool
        ensures { result ≡ in_range (requirement_meant self) }
    {
        is_quantity(self.requirement) && is_penalty(self.deficit_price)
    }
}

impl CaseRecord<'_> {
    /// Whether its numbers are in range and in order.
    pub(crate) fn is_in_range(self) -> bool
        ensures { result ≡ in_range (meant self.entry) }
    {
        match self {
            CaseRecord::Period(period) => period.is_in_range(),
            CaseRecord::Node(node) => node.is_in_range(),
            CaseRecord::Line(line) => line.is_in_range(),
            CaseRecord::EnergyOffer(offer) => offer.is_in_range(),
            CaseRecord::Bid(bid) => bid.is_in_range(),
            CaseRecord::RegulationOffer(offer) => offer.is_in_range(),
            CaseRecord::Requirement(requirement) => requirement.is_in_range(),
        }
    }
}
