//! The parts of an input: a case, and then certificates.
#![tactic(auto)]

pub mod certificate;
pub mod law;
pub mod limit;
pub mod part;
