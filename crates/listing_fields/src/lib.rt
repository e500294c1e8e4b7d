//! The fields of a listing: a book of columns and rows written as bytes.
#![tactic(auto)]

mod column;
pub mod range;
pub mod read;
pub mod record;
mod row;
pub mod sides;
pub mod term;
