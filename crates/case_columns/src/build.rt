//! The columns of each record, and of a case.
ghost use Rattle.std.specs.Prelude.{◌≡◌, ◌++◌, map, IfOk, OnOk};
ghost use Rattle.case_fields.specs.Meant.{node_meant, line_meant, energy_offer_meant, bid_meant, regulation_offer_meant, requirement_meant, meant};
ghost use Rattle.case_columns.specs.Kinds.{at};
ghost use Rattle.case_columns.specs.Tables.{columns_in};
ghost use Rattle.case_columns.specs.Columns.{line_front, offer_front, regulation_front, columns_of, columns as all_columns};

use crate::column::{
    angle, between, bought, free, injection, priced, sold, switch, violation, weight,
};
use crate::count::kinds_of;
use crate::name::{Named, Quantity};
use crate::position::Position;
use crate::table::Table;
use case_fields::record::{Bid, CaseRecord, EnergyOffer, Line, Node, RegulationOffer, Requirement};
use std::alloc::{AllocError, Global};

impl Position {
    /// The place of the node of a number.
    fn node_place(self, node: u16) -> usize
        ensures { result ≡ at self.kinds.nodes node }
    {
        self.kinds.nodes.first + usize::from(node)
    }

    /// The columns of a node.
    fn node(self, node: Node) -> [Named; 4]
        ensures { result ≡ columns_of self.kinds self.place (node_meant node) }
    {
        let place = self.place;
        [
            injection(place),
            angle(place, self.kinds.nodes.first),
            priced(
                Quantity::Deficit,
                place,
                place,
                node.deficit_maximum,
                node.deficit_price,
            ),
            priced(
                Quantity::Excess,
                place,
                place,
                node.excess_maximum,
                node.excess_price,
            ),
        ]
    }

    /// The columns of a line before its Weights.
    fn line_front(self, line: Line<'_>) -> [Named; 6]
        ensures { result ≡ line_front self.kinds self.place line.entry.start line.entry.end line.entry.violation_price }
    {
        let place = self.place;
        let start = self.node_place(line.start);
        let end = self.node_place(line.end);
        let price = line.violation_price;
        [
            between(Quantity::Flow, place, start, end, -1_000_000),
            between(Quantity::Loss, place, start, end, 0),
            violation(Quantity::OverForward, place, price),
            violation(Quantity::OverReverse, place, price),
            violation(Quantity::ShortW, place, price),
            violation(Quantity::OverW, place, price),
        ]
    }

    /// Adds the columns of a line.
    fn line(self, columns: &mut Vec<Named>, line: Line<'_>) -> Result<(), AllocError>
        ensures { OnOk result (columns.new.items ≡ columns.old.items ++ columns_of self.kinds self.place (line_meant line.entry)) }
    {
        let place = self.place;
        columns.extend_from_slice(&self.line_front(line))?;
        columns.extend(line.points.iter().map(|point| weight(place, point)))
    }

    /// The columns of an energy offer before its blocks.
    fn offer_front(self, offer: EnergyOffer<'_>) -> [Named; 3]
        ensures { result ≡ offer_front self.kinds self.place offer.entry.node offer.entry.violation_price }
    {
        let place = self.place;
        let price = offer.violation_price;
        [
            free(Quantity::Generation, place, self.node_place(offer.node)),
            violation(Quantity::OverUp, place, price),
            violation(Quantity::OverDown, place, price),
        ]
    }

    /// Adds the columns of an energy offer.
    fn offer(self, columns: &mut Vec<Named>, offer: EnergyOffer<'_>) -> Result<(), AllocError>
        ensures { OnOk result (columns.new.items ≡ columns.old.items ++ columns_of self.kinds self.place (energy_offer_meant offer.entry)) }
    {
        let place = self.place;
        let blocks = offer.blocks.iter();
        columns.extend_from_slice(&self.offer_front(offer))?;
        columns.extend(blocks.map(|block| sold(Quantity::OfferBlock, place, block)))
    }

    /// Adds the columns of a bid.
    fn bid(self, columns: &mut Vec<Named>, bid: Bid<'_>) -> Result<(), AllocError>
        ensures { OnOk result (columns.new.items ≡ columns.old.items ++ columns_of self.kinds self.place (bid_meant bid.entry)) }
    {
        let place = self.place;
        columns.push(free(Quantity::Purchase, place, self.node_place(bid.node)))?;
        columns.extend(bid.blocks.iter().map(|block| bought(place, block)))
    }

    /// The columns of a regulation offer before its blocks.
    fn regulation_front(self, offer: RegulationOffer<'_>) -> [Named; 4]
        ensures { result ≡ regulation_front self.place offer.entry.violation_price }
    {
        let place = self.place;
        let price = offer.violation_price;
        [
            free(Quantity::Regulation, place, 0),
            switch(place),
            violation(Quantity::OverReg, place, price),
            violation(Quantity::ShortReg, place, price),
        ]
    }

    /// Adds the columns of a regulation offer.
    fn regulation(
        self,
        columns: &mut Vec<Named>,
        offer: RegulationOffer<'_>,
    ) -> Result<(), AllocError>
        ensures { OnOk result (columns.new.items ≡ columns.old.items ++ columns_of self.kinds self.place (regulation_offer_meant offer.entry)) }
    {
        let place = self.place;
        let blocks = offer.blocks.iter();
        columns.extend_from_slice(&self.regulation_front(offer))?;
        columns.extend(blocks.map(|block| sold(Quantity::RegulationBlock, place, block)))
    }

    /// The column of the requirement.
    fn requirement(self, needed: Requirement) -> [Named; 1]
        ensures { result ≡ columns_of self.kinds self.place (requirement_meant needed) }
    {
        [priced(
            Quantity::ShortRequirement,
            self.place,
            0,
            needed.requirement,
            needed.deficit_price,
        )]
    }

    /// Adds the columns of a record.
    fn add_to(self, columns: &mut Vec<Named>, given: CaseRecord<'_>) -> Result<(), AllocError>
        ensures { OnOk result (columns.new.items ≡ columns.old.items ++ columns_of self.kinds self.place (meant given.entry)) }
    {
        match given {
            CaseRecord::Period(_) => Ok(()),
            CaseRecord::Node(node) => columns.extend_from_slice(&self.node(node)),
            CaseRecord::Line(line) => self.line(columns, line),
            CaseRecord::EnergyOffer(offer) => self.offer(columns, offer),
            CaseRecord::Bid(bid) => self.bid(columns, bid),
            CaseRecord::RegulationOffer(offer) => self.regulation(columns, offer),
            CaseRecord::Requirement(needed) => columns.extend_from_slice(&self.requirement(needed)),
        }
    }
}

/// The named columns of a case, in file order.
pub fn table_of(heap: Global, records: &[CaseRecord<'_>]) -> Result<Table, AllocError>
    ensures { IfOk result (λ t. columns_in t ≡ all_columns (map meant records.now)) }
{
    let kinds = kinds_of(records);
    let mut named = Vec::new(heap);
    let mut starts = Vec::new(heap);
    for (place, given) in records.iter().enumerate() {
        starts.push(named.len())?;
        Position { kinds, place }.add_to(&mut named, *given)?;
    }
    Ok(Table::of(named, starts))
}
