//! From the bytes of an input to verdicts.
#![tactic(auto)]

mod calls;
pub mod outcome;
