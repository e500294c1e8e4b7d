//! What a constraint book is: columns and rows behind five questions.
#![tactic(auto)]

pub mod book;
pub mod clause;
pub mod condition;
pub mod fault;
pub mod part;
pub mod walk;
