//! What the records read so far say for those that follow.
use crate::kind::RecordKind;

/// What is kept of the records read so far, so that tag and references of a new record are judged in constant time.
// Kept: the contracts of its methods name the records that it sums up, which no field of it determines, so that no model can.
#[derive(Drop)]
pub struct Summary {
    /// The kind of the last record, none before the first. As tags never fall, it tells whether a requirement was read.
    last: Option<RecordKind>,
    has_period: bool,
    nodes: usize,
    /// For each energy offer, whether a regulation offer names it.
    regulated: Vec<bool>,
}

mod judge;
mod note;
