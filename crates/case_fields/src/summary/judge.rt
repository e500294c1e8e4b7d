//! What a summary says of a record that follows.
ghost use Rattle.std.specs.Prelude.{◌≡◌, false, not, List, [], vec_len, nat_lt, slice_index_or};
ghost use Rattle.case_fields.specs.Kinds.{both, tag_of};
ghost use Rattle.case_fields.specs.Entries.{Entry};
ghost use Rattle.case_fields.specs.Meant.{meant};
ghost use Rattle.case_fields.specs.Summaries.{SumsUp, last_tag};
ghost use Rattle.case_fields.specs.Tests.{in_turn, refers, complete};

use crate::kind::RecordKind;
use crate::record::CaseRecord;
use crate::summary::Summary;
use std::alloc::Global;

impl Summary {
    /// The summary of no records.
    pub fn new(heap: Global) -> Summary
        ensures { SumsUp result [] }
    {
        Summary {
            last: None,
            has_period: false,
            nodes: 0,
            regulated: Vec::new(heap),
        }
    }

    /// Whether a field of this kind may follow.
    pub fn lets_follow(&self, kind: RecordKind) -> bool
        ensures { result ≡ in_turn (last_tag self.now.last) kind (tag_of kind) }
    {
        self.last.is_none_or(|last| {
            if last == kind {
                !kind.once()
            } else {
                last < kind
            }
        })
    }

    /// Whether a node has this number.
    fn has_node(&self, node: u16) -> bool
        ensures { result ≡ nat_lt node self.now.nodes }
    {
        usize::from(node) < self.nodes
    }

    /// Whether an energy offer has this number and no regulation offer names it yet.
    fn is_free(&self, offer: u16) -> bool
        ensures { result ≡ both (nat_lt offer (vec_len self.now.regulated)) (not (slice_index_or self.now.regulated.items offer false)) }
    {
        self.regulated.get(usize::from(offer)) == Some(&false)
    }

    /// Whether what the record refers to stands among the records, and may be referred to.
    pub fn holds_references(&self, record: CaseRecord<'_>) -> bool
        ensures { (es : List Entry) → SumsUp self.now es → result ≡ refers es (meant «record».entry) }
    {
        match record {
            CaseRecord::Line(line) => {
                self.has_node(line.start) && self.has_node(line.end) && line.start != line.end
            }
            CaseRecord::EnergyOffer(offer) => self.has_node(offer.node),
            CaseRecord::Bid(bid) => self.has_node(bid.node),
            CaseRecord::RegulationOffer(regulation) => self.is_free(regulation.offer),
            CaseRecord::Period(_) | CaseRecord::Node(_) | CaseRecord::Requirement(_) => true,
        }
    }

    /// Whether no record is missing.
    pub fn is_complete(&self) -> bool
        ensures { (es : List Entry) → SumsUp self.now es → result ≡ complete es }
    {
        self.last == Some(RecordKind::Requirement) && self.has_period && self.nodes > 0
    }
}
