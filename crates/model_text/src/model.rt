//! The text of columns and rows, a line for each.
use crate::name::column_name;
use books::clause::clause_of;
use books::part::{Column, Row};
use books::walk::{Columns, Rows, Terms};
use case_columns::kinds::Kinds;
use clause_book::book::ClauseBook;
use listing_fields::term::Term;
use std::fmt;

/// The columns and rows of a case.
#[derive(Clone, Copy, Drop)]
pub(crate) struct Model<'b> {
    pub(crate) kinds: Kinds,
    pub(crate) book: &'b ClauseBook,
}

impl Model<'_> {
    /// Shows the name of the column of a number.
    fn show_name<W: fmt::Write>(self, j: usize, f: &mut fmt::Formatter<W>) -> fmt::Result {
        if let Some(named) = self.book.named(j) {
            let name = column_name(self.kinds, self.book, j, named.name);
            write!(f, "{name}")?;
        }
        Ok(())
    }

    /// Shows a column: its number, its name, its limits, its price, and whether it is a switch.
    fn show_column<W: fmt::Write>(
        self,
        j: usize,
        column: Column,
        f: &mut fmt::Formatter<W>,
    ) -> fmt::Result {
        write!(f, "column {j} ")?;
        self.show_name(j, f)?;
        let Column {
            lower,
            upper,
            price,
            switch,
        } = column;
        let switch = if switch { ", switch" } else { "" };
        writeln!(f, ": {lower} to {upper}, price {price}{switch}")
    }

    /// Shows a term: its coefficient, with the sign before it, and the name of its column.
    fn show_term<W: fmt::Write>(
        self,
        first: bool,
        term: Term,
        f: &mut fmt::Formatter<W>,
    ) -> fmt::Result {
        // Kept: four texts by two facts; a closure or a type for the sign of a first term would say no more.
        let size = term.coefficient.unsigned_abs();
        let sign = match (first, term.coefficient < 0) {
            (true, true) => "-",
            (true, false) => "",
            (false, true) => " - ",
            (false, false) => " + ",
        };
        write!(f, "{sign}{size} ")?;
        self.show_name(usize::from(term.column), f)
    }

    /// Shows a row between the sides that it has; a row of no terms is nought.
    fn show_row<W: fmt::Write>(self, i: usize, row: Row, f: &mut fmt::Formatter<W>) -> fmt::Result {
        if let Some(clause) = clause_of(row.code) {
            let text = clause.text;
            write!(f, "row {i} {text}: ")?;
        }
        if let Some(lower) = row.lower {
            write!(f, "{lower} <= ")?;
        }
        if row.terms == 0 {
            write!(f, "0")?;
        }
        for (k, term) in Terms::of(self.book, i).enumerate() {
            self.show_term(k == 0, term, f)?;
        }
        if let Some(upper) = row.upper {
            write!(f, " <= {upper}")?;
        }
        writeln!(f)
    }
}

impl fmt::Display for Model<'_> {
    fn fmt<W: fmt::Write>(&self, f: &mut fmt::Formatter<W>) -> fmt::Result {
        for (j, column) in Columns::of(self.book).enumerate() {
            self.show_column(j, column, f)?;
        }
        for (i, row) in Rows::of(self.book).enumerate() {
            self.show_row(i, row, f)?;
        }
        Ok(())
    }
}
