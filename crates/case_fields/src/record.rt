//! A record of a case.
ghost use Rattle.std.specs.Prelude.{◌≡◌};
ghost use Rattle.case_fields.specs.Encoding.{tag};
ghost use Rattle.case_fields.specs.Kinds.{tag_of};
ghost use Rattle.case_fields.specs.Meant.{meant};

use crate::kind::RecordKind;
use crate::part::{Blocks, Points};

/// The half hour, and by how much a widened row may be missed.
#[derive(Clone, Copy, PartialEq, Eq, Debug)]
pub struct Period {
    pub number: u32,
    pub allowance: i32,
}

/// A node of the network.
#[derive(Clone, Copy, PartialEq, Eq, Debug)]
pub struct Node {
    pub deficit_maximum: i32,
    pub deficit_price: i32,
    pub excess_maximum: i32,
    pub excess_price: i32,
}

/// A line between two nodes, its admittance in watts per microradian and its shift in microradians.
#[derive(Clone, Copy)]
pub struct Line<'a> {
    pub start: u16,
    pub end: u16,
    pub forward_limit: i32,
    pub reverse_limit: i32,
    pub admittance: i32,
    pub shift: i32,
    pub violation_price: i32,
    pub points: Points<'a>,
}

/// An offer to generate at a node.
#[derive(Clone, Copy)]
pub struct EnergyOffer<'a> {
    pub node: u16,
    pub end_minimum: i32,
    pub end_maximum: i32,
    pub violation_price: i32,
    pub blocks: Blocks<'a>,
}

/// A bid to buy at a node.
#[derive(Clone, Copy)]
pub struct Bid<'a> {
    pub node: u16,
    pub blocks: Blocks<'a>,
}

/// An offer to regulate with the unit of an energy offer.
#[derive(Clone, Copy)]
pub struct RegulationOffer<'a> {
    pub offer: u16,
    pub minimum: i32,
    pub maximum: i32,
    pub violation_price: i32,
    pub blocks: Blocks<'a>,
}

/// The regulation that the half hour requires.
#[derive(Clone, Copy, PartialEq, Eq, Debug)]
pub struct Requirement {
    pub requirement: i32,
    pub deficit_price: i32,
}

/// A record of a case, in kilowatts and cents per MWh. Points and blocks stay in the file.
#[derive(Clone, Copy)]
pub enum CaseRecord<'a> {
    Period(Period),
    Node(Node),
    Line(Line<'a>),
    EnergyOffer(EnergyOffer<'a>),
    Bid(Bid<'a>),
    RegulationOffer(RegulationOffer<'a>),
    Requirement(Requirement),
}

impl CaseRecord<'_> {
    /// Its kind.
    pub fn kind(self) -> RecordKind
        ensures { tag_of result ≡ tag (meant self.entry) }
    {
        match self {
            CaseRecord::Period(_) => RecordKind::Period,
            CaseRecord::Node(_) => RecordKind::Node,
            CaseRecord::Line(_) => RecordKind::Line,
            CaseRecord::EnergyOffer(_) => RecordKind::EnergyOffer,
            CaseRecord::Bid(_) => RecordKind::Bid,
            CaseRecord::RegulationOffer(_) => RecordKind::RegulationOffer,
            CaseRecord::Requirement(_) => RecordKind::Requirement,
        }
    }

    /// The tag of its field.
    pub fn tag(self) -> u8
        ensures { result ≡ tag (meant self.entry) }
    {
        self.kind().tag()
    }
}
