//! The text of verdicts.
#![tactic(auto)]

pub mod output;
pub mod text;
