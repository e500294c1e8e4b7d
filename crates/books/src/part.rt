//! What a book answers with.
use std::fmt;

/// A column: limits, a price, and whether it is a switch, which takes 0 or 1 alone.
#[derive(Clone, Copy, PartialEq, Eq, Debug)]
pub struct Column {
    pub lower: i32,
    pub upper: i32,
    pub price: i32,
    pub switch: bool,
}

/// A row without its terms, of which it has the number. A side that is absent does not bind.
// Kept: the code is a number and the sides are `Option`s of plain numbers by rules of the project: the table of clauses is by code, and listings write it.
#[derive(Clone, Copy, PartialEq, Eq, Debug)]
pub struct Row {
    pub code: u8,
    pub lower: Option<i64>,
    pub upper: Option<i64>,
    pub terms: usize,
}

/// Where a fault is: at an offset of the input, at a column or at a row.
#[derive(Clone, Copy, PartialEq, Eq, Debug)]
pub enum Place {
    Offset(usize),
    Column(usize),
    Row(usize),
}

impl fmt::Display for Place {
    ghost use Rattle.std.specs.Prelude.{Some};
    ghost use Rattle.books.specs.Places.{place_text};

    ghost output = { λ p. Some (place_text p) };

    fn fmt<W: fmt::Write>(&self, f: &mut fmt::Formatter<W>) -> fmt::Result {
        match self {
            Place::Offset(n) => write!(f, "offset {n}"),
            Place::Column(n) => write!(f, "column {n}"),
            Place::Row(n) => write!(f, "row {n}"),
        }
    }
}
