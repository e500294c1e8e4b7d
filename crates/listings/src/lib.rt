//! Listings: a book written as bytes, and read again.
#![tactic(auto)]

pub mod book;
pub mod bytes;
mod gather;
mod put;
pub mod read;
pub mod write;
