//! The book over a case: its columns, and the rows of its clauses.
#![tactic(auto)]

pub mod book;
mod gather;
pub mod open;
