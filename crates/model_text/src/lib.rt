//! A case with its columns and rows shown to a person: what becomes of an input, and the text of each record, column and row.
#![tactic(auto)]

mod model;
pub mod name;
pub mod outcome;
pub mod text;
