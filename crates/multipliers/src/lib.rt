//! Judging a set of multipliers against any book, in time linear in its terms.
#![tactic(auto)]

mod costs;
pub mod judge;
mod rows;
mod step;
pub mod working_table;
