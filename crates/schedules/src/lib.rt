//! A schedule against a book: its numbers within the columns' limits, the rows' activities within their sides, and the net benefit.
#![tactic(auto)]

mod activity;
pub mod judge;
mod limit;
mod price;
mod product;
