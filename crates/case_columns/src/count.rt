//! Counting the records.
ghost use Rattle.std.specs.Prelude.{◌≡◌, ◌+◌, ◌<◌, ◌≤◌, map, length};
ghost use Rattle.case_fields.specs.Kinds.{tag_of};
ghost use Rattle.case_fields.specs.Meant.{meant};
ghost use Rattle.case_columns.specs.Kinds.{below, kinds, Few};

use crate::kinds::{Kinds, Span};
use case_fields::kind::RecordKind;
use case_fields::record::CaseRecord;

/// The records of a kind: those behind all of a lower tag, up to the last whose tag is not higher.
#[tactic(auto, using(crate::proofs::Counts::count_below, crate::proofs::Counts::count_up_to))]
fn span_of(records: &[CaseRecord<'_>], kind: RecordKind) -> Span
    ensures first { result.first ≡ below (tag_of kind) (map meant records.now) }
    ensures past { result.past ≡ below (tag_of kind + 1) (map meant records.now) }
    ensures high { result.first ≤ length records.now }
{
    let tag = kind.tag();
    Span {
        first: records.iter().filter(|given| given.tag() < tag).count(),
        past: records.iter().filter(|given| given.tag() <= tag).count(),
    }
}

/// Where the records of each kind stand.
pub fn kinds_of(records: &[CaseRecord<'_>]) -> Kinds
    ensures value { result ≡ kinds (map meant records.now) }
    ensures few { Few result }
{
    Kinds {
        nodes: span_of(records, RecordKind::Node),
        lines: span_of(records, RecordKind::Line),
        offers: span_of(records, RecordKind::EnergyOffer),
        bids: span_of(records, RecordKind::Bid),
        regulations: span_of(records, RecordKind::RegulationOffer),
    }
}
