//! A docket: what the schedules and multipliers laid on one book establish.
#![tactic(auto)]

pub mod docket;
mod judge;
pub mod run;
pub mod standing;
pub mod text;
pub mod theorem;
pub mod verdict;
