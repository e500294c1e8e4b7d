//! The text of a case, a line for each record.
use crate::outcome::Outcome;
use case_fields::kind::RecordKind;
use case_fields::record::{
    Bid, CaseRecord, EnergyOffer, Line, Node, Period, RegulationOffer, Requirement,
};
use fields::sequence::{Element, Sequence};
use std::fmt;

/// How many records of each kind came so far.
#[derive(Clone, Copy, Default)]
struct Counts {
    nodes: usize,
    lines: usize,
    energy_offers: usize,
    bids: usize,
    regulation_offers: usize,
}

impl Counts {
    /// The number of the next record of a kind among those of the kind, or nought where a case has one.
    fn next(&mut self, kind: RecordKind) -> usize {
        let count = match kind {
            RecordKind::Node => &mut self.nodes,
            RecordKind::Line => &mut self.lines,
            RecordKind::EnergyOffer => &mut self.energy_offers,
            RecordKind::Bid => &mut self.bids,
            RecordKind::RegulationOffer => &mut self.regulation_offers,
            RecordKind::Period | RecordKind::Requirement => return 0,
        };
        let number = *count;
        *count = number.saturating_add(1);
        number
    }
}

/// Shows the blocks or points of a record.
fn show_parts<T: Element + fmt::Display, W: fmt::Write>(
    parts: Sequence<'_, T>,
    f: &mut fmt::Formatter<W>,
) -> fmt::Result {
    for part in parts.iter() {
        write!(f, "; {part}")?;
    }
    Ok(())
}

/// One record with its number among those of its kind.
#[derive(Clone, Copy, Drop)]
struct Numbered<'a> {
    number: usize,
    record: CaseRecord<'a>,
}

impl fmt::Display for Numbered<'_> {
    fn fmt<W: fmt::Write>(&self, f: &mut fmt::Formatter<W>) -> fmt::Result {
        let number = self.number;
        match self.record {
            CaseRecord::Period(Period { number, allowance }) => {
                write!(
                    f,
                    "period {number}: allowance {allowance} in the unit of each widened row"
                )
            }
            CaseRecord::Node(
                Node {
                    deficit_maximum,
                    deficit_price,
                    excess_maximum,
                    excess_price,
                },
            ) => {
                write!(
                    f,
                    "node {number}: deficit up to {deficit_maximum} kW at {deficit_price} cents per MWh; excess up to {excess_maximum} kW at {excess_price} cents per MWh"
                )
            }
            CaseRecord::Line(
                Line {
                    start,
                    end,
                    forward_limit,
                    reverse_limit,
                    admittance,
                    shift,
                    violation_price,
                    points,
                },
            ) => {
                write!(
                    f,
                    "line {number}: from node {start} to node {end}; flow {reverse_limit} to {forward_limit} kW; admittance {admittance} W/µrad; shift {shift} µrad; violation at {violation_price} cents per MWh"
                )?;
                show_parts(points, f)
            }
            CaseRecord::EnergyOffer(
                EnergyOffer {
                    node,
                    end_minimum,
                    end_maximum,
                    violation_price,
                    blocks,
                },
            ) => {
                write!(
                    f,
                    "energy offer {number}: at node {node}; end {end_minimum} to {end_maximum} kW; violation at {violation_price} cents per MWh"
                )?;
                show_parts(blocks, f)
            }
            CaseRecord::Bid(Bid { node, blocks }) => {
                write!(f, "bid {number}: at node {node}")?;
                show_parts(blocks, f)
            }
            CaseRecord::RegulationOffer(
                RegulationOffer {
                    offer,
                    minimum,
                    maximum,
                    violation_price,
                    blocks,
                },
            ) => {
                write!(
                    f,
                    "regulation offer {number}: on energy offer {offer}; regulating {minimum} to {maximum} kW; violation at {violation_price} cents per MWh"
                )?;
                show_parts(blocks, f)
            }
            CaseRecord::Requirement(
                Requirement {
                    requirement,
                    deficit_price,
                },
            ) => {
                write!(
                    f,
                    "requirement: {requirement} kW; deficit at {deficit_price} cents per MWh"
                )
            }
        }
    }
}

/// Shows a case: a line for each record, and how many of each kind there are.
pub fn show_case<W: fmt::Write>(
    records: &[CaseRecord<'_>],
    f: &mut fmt::Formatter<W>,
) -> fmt::Result {
    let mut counts = Counts::default();
    for record in records {
        let line = Numbered {
            number: counts.next(record.kind()),
            record: *record,
        };
        writeln!(f, "{line}")?;
    }
    let Counts {
        nodes,
        lines,
        energy_offers,
        bids,
        regulation_offers,
    } = counts;
    writeln!(
        f,
        "nodes {nodes}, lines {lines}, energy offers {energy_offers}, bids {bids}, regulation offers {regulation_offers}"
    )
}

impl fmt::Display for Outcome<'_> {
    fn fmt<W: fmt::Write>(&self, f: &mut fmt::Formatter<W>) -> fmt::Result {
        match self {
            Outcome::InputRefused => writeln!(f, "input refused"),
            Outcome::CaseRefused(fault) => {
                let number = fault.kind.number();
                let offset = fault.offset;
                writeln!(f, "case refused {number} offset {offset}")
            }
            Outcome::Case(records) => show_case(records.as_slice(), f),
        }
    }
}
