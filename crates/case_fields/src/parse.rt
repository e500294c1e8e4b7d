//! A record from the body of its field. The parser of each kind makes the whole record: a struct moved into it afterwards is packed and unpacked again, and the time of reading shows it.
ghost use Rattle.std.specs.Prelude.{◌≡◌, ◌-◌, ◌%◌, ◌≤◌, true, false, length, MatchOption, MatchResult};
ghost use Rattle.fields.specs.declared.fault.FaultKind.TheVariants.{BadLength};
ghost use Rattle.case_fields.specs.Kinds.{tag_of, takes};
ghost use Rattle.case_fields.specs.Meant.{meant};
ghost use Rattle.case_fields.specs.Parsed.{Holds};

use crate::kind::RecordKind;
use crate::part::{Blocks, Points};
use crate::record::{
    Bid, CaseRecord, EnergyOffer, Line, Node, Period, RegulationOffer, Requirement,
};
use fields::fault::FaultKind;
use fields::number::Number;

impl Period {
    fn parse(body: &[u8]) -> Option<CaseRecord<'_>>
        requires { length body.now ≡ 8 }
        ensures { MatchOption result ⊥ (λ r. Holds body.now 1 (meant r)) }
    {
        let (number, rest) = u32::split(body)?;
        let (allowance, _) = i32::split(rest)?;
        Some(CaseRecord::Period(Period { number, allowance }))
    }
}

impl Node {
    fn parse(body: &[u8]) -> Option<CaseRecord<'_>>
        requires { length body.now ≡ 16 }
        ensures { MatchOption result ⊥ (λ r. Holds body.now 2 (meant r)) }
    {
        let (deficit_maximum, rest) = i32::split(body)?;
        let (deficit_price, rest) = i32::split(rest)?;
        let (excess_maximum, rest) = i32::split(rest)?;
        let (excess_price, _) = i32::split(rest)?;
        Some(CaseRecord::Node(Node {
            deficit_maximum,
            deficit_price,
            excess_maximum,
            excess_price,
        }))
    }
}

impl<'a> Line<'a> {
    fn parse(body: &'a [u8]) -> Option<CaseRecord<'a>>
        requires { (24 ≤ length body.now) × ((length body.now - 24) % 8 ≡ 0) }
        ensures { MatchOption result ⊥ (λ r. Holds body.now 3 (meant r)) }
    {
        let (start, rest) = u16::split(body)?;
        let (end, rest) = u16::split(rest)?;
        let (forward_limit, rest) = i32::split(rest)?;
        let (reverse_limit, rest) = i32::split(rest)?;
        let (admittance, rest) = i32::split(rest)?;
        let (shift, rest) = i32::split(rest)?;
        let (violation_price, bytes) = i32::split(rest)?;
        Some(CaseRecord::Line(Line {
            start,
            end,
            forward_limit,
            reverse_limit,
            admittance,
            shift,
            violation_price,
            points: Points::new(bytes),
        }))
    }
}

impl<'a> EnergyOffer<'a> {
    fn parse(body: &'a [u8]) -> Option<CaseRecord<'a>>
        requires { (14 ≤ length body.now) × ((length body.now - 14) % 8 ≡ 0) }
        ensures { MatchOption result ⊥ (λ r. Holds body.now 4 (meant r)) }
    {
        let (node, rest) = u16::split(body)?;
        let (end_minimum, rest) = i32::split(rest)?;
        let (end_maximum, rest) = i32::split(rest)?;
        let (violation_price, bytes) = i32::split(rest)?;
        Some(CaseRecord::EnergyOffer(EnergyOffer {
            node,
            end_minimum,
            end_maximum,
            violation_price,
            blocks: Blocks::new(bytes),
        }))
    }
}

impl<'a> Bid<'a> {
    fn parse(body: &'a [u8]) -> Option<CaseRecord<'a>>
        requires { (2 ≤ length body.now) × ((length body.now - 2) % 8 ≡ 0) }
        ensures { MatchOption result ⊥ (λ r. Holds body.now 5 (meant r)) }
    {
        let (node, bytes) = u16::split(body)?;
        Some(CaseRecord::Bid(Bid {
            node,
            blocks: Blocks::new(bytes),
        }))
    }
}

impl<'a> RegulationOffer<'a> {
    fn parse(body: &'a [u8]) -> Option<CaseRecord<'a>>
        requires { (14 ≤ length body.now) × ((length body.now - 14) % 8 ≡ 0) }
        ensures { MatchOption result ⊥ (λ r. Holds body.now 6 (meant r)) }
    {
        let (offer, rest) = u16::split(body)?;
        let (minimum, rest) = i32::split(rest)?;
        let (maximum, rest) = i32::split(rest)?;
        let (violation_price, bytes) = i32::split(rest)?;
        Some(CaseRecord::RegulationOffer(RegulationOffer {
            offer,
            minimum,
            maximum,
            violation_price,
            blocks: Blocks::new(bytes),
        }))
    }
}

impl Requirement {
    fn parse(body: &[u8]) -> Option<CaseRecord<'_>>
        requires { length body.now ≡ 8 }
        ensures { MatchOption result ⊥ (λ r. Holds body.now 15 (meant r)) }
    {
        let (requirement, rest) = i32::split(body)?;
        let (deficit_price, _) = i32::split(rest)?;
        Some(CaseRecord::Requirement(Requirement {
            requirement,
            deficit_price,
        }))
    }
}

impl<'a> CaseRecord<'a> {
    /// The record of this kind that a body holds, which is as long as the kind takes.
    fn parse(kind: RecordKind, body: &'a [u8]) -> Option<CaseRecord<'a>>
        requires { takes kind (length body.now) ≡ true }
        ensures { MatchOption result ⊥ (λ r. Holds body.now (tag_of kind) (meant r)) }
    {
        match kind {
            RecordKind::Period => Period::parse(body),
            RecordKind::Node => Node::parse(body),
            RecordKind::Line => Line::parse(body),
            RecordKind::EnergyOffer => EnergyOffer::parse(body),
            RecordKind::Bid => Bid::parse(body),
            RecordKind::RegulationOffer => RegulationOffer::parse(body),
            RecordKind::Requirement => Requirement::parse(body),
        }
    }

    /// The record of this kind that a body holds; refused exactly when the kind cannot be so long.
    pub(crate) fn read(kind: RecordKind, body: &'a [u8]) -> Result<CaseRecord<'a>, FaultKind>
        ensures { MatchResult result
            (λ r. (takes kind (length body.now) ≡ true) × Holds body.now (tag_of kind) (meant r))
            (λ k. (k ≡ BadLength) × (takes kind (length body.now) ≡ false)) }
    {
        if !kind.takes(body.len()) {
            return Err(FaultKind::BadLength);
        }
        CaseRecord::parse(kind, body).ok_or(FaultKind::BadLength)
    }
}
