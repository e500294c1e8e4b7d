//! The columns of a case, each with its name.
#![tactic(auto)]

pub mod build;
pub mod column;
pub mod count;
pub mod kinds;
pub mod name;
mod position;
pub mod table;
