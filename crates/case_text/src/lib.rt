//! A case shown to a person: what becomes of an input, and the text of each record.
#![tactic(auto)]

pub mod outcome;
pub mod text;
