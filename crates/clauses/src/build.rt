//! The rows of each record, and of a case.
ghost use Rattle.std.specs.Prelude.{◌≡◌, map, false, IfOk, MatchResult};
ghost use Rattle.std.specs.List.{list_all};
ghost use Rattle.case_fields.specs.Meant.{line_meant, energy_offer_meant, bid_meant, regulation_offer_meant, requirement_meant, meant};
ghost use Rattle.case_columns.specs.Tables.{columns_in};
ghost use Rattle.clauses.specs.Rows.{row_of};
ghost use Rattle.clauses.specs.Singly.{Singly};
ghost use Rattle.clauses.specs.Stored.{rows_in, holds_row, MakesAll, AddsAll};
ghost use Rattle.clauses.specs.Clauses.{node_clauses, clauses_in, clauses};
ghost use Rattle.clauses.specs.declared.error.ClauseError.TheVariants.{OutOfRange};

use crate::allowance::allowance_of;
use crate::error::ClauseError;
use crate::row::Clauses;
use crate::setting::Setting;
use case_columns::count::kinds_of;
use case_columns::table::Table;
use case_fields::record::{Bid, CaseRecord, EnergyOffer, Line, RegulationOffer, Requirement};
use std::alloc::Global;
use stored_book::row::StoredRow;

impl Clauses<'_> {
    /// Adds the rows of a node.
    fn node(self, rows: &mut Vec<StoredRow>) -> Result<(), ClauseError>
        ensures { AddsAll (columns_in self.entry.table.now) rows.old rows.new (node_clauses self.entry.setting) result }
    {
        rows.push(self.d_16_1_1()?)?;
        rows.push(self.d_16_1_2()?)?;
        Ok(())
    }

    /// Adds the rows of a line.
    fn line(self, rows: &mut Vec<StoredRow>, line: Line<'_>) -> Result<(), ClauseError>
        ensures { AddsAll (columns_in self.entry.table.now) rows.old rows.new (clauses_in self.entry.setting (line_meant line.entry)) result }
    {
        rows.push(self.d_16_2_1(line)?)?;
        rows.push(self.d_16_2_2(line)?)?;
        rows.push(self.d_16_2_3(line)?)?;
        rows.push(self.d_16_3_1()?)?;
        rows.push(self.d_16_3_2()?)?;
        rows.push(self.d_16_3_3()?)?;
        Ok(())
    }

    /// Adds the rows of an energy offer.
    fn offer(self, rows: &mut Vec<StoredRow>, offer: EnergyOffer<'_>) -> Result<(), ClauseError>
        ensures { AddsAll (columns_in self.entry.table.now) rows.old rows.new (clauses_in self.entry.setting (energy_offer_meant offer.entry)) result }
    {
        rows.push(self.d_15_1_2()?)?;
        rows.push(self.d_19_1_1(offer)?)?;
        rows.push(self.d_19_1_2(offer)?)?;
        Ok(())
    }

    /// Adds the row of a bid.
    fn bid(self, rows: &mut Vec<StoredRow>, bid: Bid<'_>) -> Result<(), ClauseError>
        ensures { AddsAll (columns_in self.entry.table.now) rows.old rows.new (clauses_in self.entry.setting (bid_meant bid.entry)) result }
    {
        rows.push(self.d_15_2_2()?)?;
        Ok(())
    }

    /// Adds the rows of a regulation offer.
    fn regulation(
        self,
        rows: &mut Vec<StoredRow>,
        offer: RegulationOffer<'_>,
    ) -> Result<(), ClauseError>
        ensures { AddsAll (columns_in self.entry.table.now) rows.old rows.new (clauses_in self.entry.setting (regulation_offer_meant offer.entry)) result }
    {
        rows.push(self.d_18_1_2()?)?;
        rows.push(self.d_18_1_3(offer)?)?;
        rows.push(self.d_18_1_4(offer)?)?;
        rows.push(self.d_18_1_5()?)?;
        Ok(())
    }

    /// Adds the row of the requirement.
    fn requirement(self, rows: &mut Vec<StoredRow>, needed: Requirement) -> Result<(), ClauseError>
        ensures { AddsAll (columns_in self.entry.table.now) rows.old rows.new (clauses_in self.entry.setting (requirement_meant needed)) result }
    {
        rows.push(self.d_18_2_1(needed)?)?;
        Ok(())
    }

    /// Adds the rows of a record.
    fn add_to(self, rows: &mut Vec<StoredRow>, given: CaseRecord<'_>) -> Result<(), ClauseError>
        ensures { AddsAll (columns_in self.entry.table.now) rows.old rows.new (clauses_in self.entry.setting (meant given.entry)) result }
    {
        match given {
            CaseRecord::Period(_) => Ok(()),
            CaseRecord::Node(_) => self.node(rows),
            CaseRecord::Line(line) => self.line(rows, line),
            CaseRecord::EnergyOffer(offer) => self.offer(rows, offer),
            CaseRecord::Bid(bid) => self.bid(rows, bid),
            CaseRecord::RegulationOffer(offer) => self.regulation(rows, offer),
            CaseRecord::Requirement(needed) => self.requirement(rows, needed),
        }
    }
}

/// The rows of a case over the columns of a table, in file order.
/// They are refused as out of range only where the number of a column has more than 16 bits or a coefficient more than 32,
/// which no case brings about that has its numbers in range and at most 4,000 columns.
pub fn rows_of(
    heap: Global,
    records: &[CaseRecord<'_>],
    table: &Table,
) -> Result<Vec<StoredRow>, ClauseError>
    ensures rows { MakesAll (columns_in table.now) (clauses (map meant records.now)) result }
    ensures singly { IfOk result (λ rs. Singly (columns_in table.now) (clauses (map meant records.now)) (rows_in rs)) }
{
    let kinds = kinds_of(records);
    let allowance = allowance_of(records);
    let mut rows = Vec::new(heap);
    for (place, given) in records.iter().enumerate() {
        let setting = Setting {
            kinds,
            allowance,
            place,
        };
        let clauses = Clauses {
            heap,
            table,
            setting,
        };
        clauses.add_to(&mut rows, *given)?;
    }
    Ok(rows)
}
