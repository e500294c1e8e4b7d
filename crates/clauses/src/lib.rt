//! The clauses of a case: which sums over its columns they limit, and the rows that they give.
#![tactic(auto)]

pub mod allowance;
pub mod build;
pub mod clause;
pub mod error;
pub mod item;
pub mod lists;
mod row;
pub mod setting;
pub mod sum;
pub mod walk;
pub mod weigh;
