//! A book with rows of its own behind those of another book.
#![tactic(auto)]

pub mod added;
mod condition;
mod table;
