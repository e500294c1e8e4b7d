//! What can be wrong with a certificate.
ghost use Rattle.std.specs.Prelude.{◌≡◌};
ghost use Rattle.certificates.specs.Faults.{rule};
ghost use Rattle.certificates.specs.declared.fault.DocketFault.TheVariants.{Field};

use books::part::Place;
use fields::fault::FieldFault;

/// What is wrong with a certificate; the comment on each is its number.
#[derive(Clone, Copy, PartialEq, Eq, Debug)]
pub enum DocketFault {
    /// 1, 2 and 4: its field is at fault.
    Field(FieldFault),
    /// 20: the value bytes are not the numbers that the book asks for.
    ValueCount,
    /// 21: the number of this column lies beyond its limits.
    ColumnBroken { column: usize },
    /// 22: the activity of this row, of the clause of this code, lies beyond its sides.
    RowBroken { row: usize, code: u8 },
    /// 23: the net benefit lies beyond ±10^13.
    BenefitBeyond,
    /// 24: the multiplier of this row lies beyond ±10^12.
    MultiplierBeyond { row: usize, code: u8 },
    /// 25: this row lacks the side that its multiplier takes.
    SideAbsent { row: usize, code: u8 },
    /// 26: a product or the total lies beyond ±2^60 where this row is added.
    RowBeyond { row: usize, code: u8 },
    /// 26: a product or a running value lies beyond ±2^60 where this column is summed.
    ColumnBeyond { column: usize },
}

impl DocketFault {
    /// The number under which the fault is reported.
    pub fn number(self) -> u8
        ensures { result ≡ (rule self).number }
    {
        match self {
            DocketFault::Field(fault) => fault.kind.number(),
            DocketFault::ValueCount => 20,
            DocketFault::ColumnBroken { .. } => 21,
            DocketFault::RowBroken { .. } => 22,
            DocketFault::BenefitBeyond => 23,
            DocketFault::MultiplierBeyond { .. } => 24,
            DocketFault::SideAbsent { .. } => 25,
            DocketFault::RowBeyond { .. } | DocketFault::ColumnBeyond { .. } => 26,
        }
    }

    /// Where the fault is.
    pub fn place(self) -> Place
        ensures { result ≡ (rule self).place }
    {
        match self {
            DocketFault::Field(fault) => Place::Offset(fault.offset),
            DocketFault::ValueCount | DocketFault::BenefitBeyond => Place::Offset(0),
            DocketFault::ColumnBroken { column } | DocketFault::ColumnBeyond { column } => {
                Place::Column(column)
            }
            DocketFault::RowBroken { row, .. }
            | DocketFault::MultiplierBeyond { row, .. }
            | DocketFault::SideAbsent { row, .. }
            | DocketFault::RowBeyond { row, .. } => Place::Row(row),
        }
    }

    /// The code of the clause whose row is at fault; none where the place is no row.
    pub fn clause(self) -> Option<u8>
        ensures { result ≡ (rule self).clause }
    {
        match self {
            DocketFault::RowBroken { code, .. }
            | DocketFault::MultiplierBeyond { code, .. }
            | DocketFault::SideAbsent { code, .. }
            | DocketFault::RowBeyond { code, .. } => Some(code),
            _ => None,
        }
    }
}

impl From<FieldFault> for DocketFault {
    ghost from_gives = { λ f r. r ≡ Field f };

    fn from(fault: FieldFault) -> DocketFault {
        DocketFault::Field(fault)
    }
}
