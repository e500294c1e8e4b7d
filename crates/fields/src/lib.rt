//! Fields of a file: one tag byte, a two-byte length and a body.
#![tactic(auto)]

pub mod certificate;
pub mod fault;
pub mod head;
pub mod number;
pub mod sequence;
pub mod walk;
