//! The name of a column, and the column.
use books::part::Column;

/// Which quantity a column is.
#[derive(Clone, Copy, PartialEq, Eq, Debug)]
pub enum Quantity {
    /// Net injection at a node.
    Injection,
    /// Phase angle of a node.
    Angle,
    /// Energy short at a node.
    Deficit,
    /// Energy in excess at a node.
    Excess,
    /// Flow of a line.
    Flow,
    /// Loss of a line.
    Loss,
    /// Flow above a line's forward limit.
    OverForward,
    /// Flow below a line's reverse limit.
    OverReverse,
    /// Flow below what the weights give.
    ShortW,
    /// Flow above what the weights give.
    OverW,
    /// Weight of a point of a line.
    Weight,
    /// Generation of an energy offer.
    Generation,
    /// Generation above the end maximum.
    OverUp,
    /// Generation below the end minimum.
    OverDown,
    /// Part of a generation, in a block.
    OfferBlock,
    /// Purchase of a bid.
    Purchase,
    /// Part of a purchase, in a block.
    BidBlock,
    /// Regulation of a regulation offer.
    Regulation,
    /// Whether a regulation offer is taken.
    Switch,
    /// Energy and regulation above the maximum.
    OverReg,
    /// Energy less regulation below the minimum.
    ShortReg,
    /// Part of a regulation, in a block.
    RegulationBlock,
    /// Regulation short of the requirement.
    ShortRequirement,
}

/// The name of a column.
#[derive(Clone, Copy, PartialEq, Eq, Debug)]
pub struct Name {
    pub quantity: Quantity,
    /// The place of its record in the file.
    pub place: usize,
    /// The place of the node where it counts; of a line, of the node where it starts.
    pub start: usize,
    /// The place of the node where a line ends.
    pub end: usize,
    /// The flow of a weight's point.
    pub flow: i32,
    /// The loss of a weight's point.
    pub loss: i32,
}

/// A column with its name.
#[derive(Clone, Copy, PartialEq, Eq, Debug)]
pub struct Named {
    pub name: Name,
    pub column: Column,
}
