//! The text of a case: its records, then a line for each column and row.
use crate::model::Model;
use crate::outcome::Outcome;
use case_columns::count::kinds_of;
use case_text::text::show_case;
use std::fmt;

impl fmt::Display for Outcome<'_> {
    fn fmt<W: fmt::Write>(&self, f: &mut fmt::Formatter<W>) -> fmt::Result {
        match self {
            Outcome::InputRefused => writeln!(f, "input refused"),
            Outcome::CaseRefused(fault) => {
                let number = fault.number();
                let place = fault.place();
                writeln!(f, "case refused {number} {place}")
            }
            Outcome::Case(case) => {
                show_case(case.records.as_slice(), f)?;
                let model = Model {
                    kinds: kinds_of(&case.records),
                    book: &case.book,
                };
                write!(f, "{model}")
            }
        }
    }
}
