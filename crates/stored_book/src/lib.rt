//! A book that holds its lists.
#![tactic(auto)]

pub mod book;
pub mod row;
