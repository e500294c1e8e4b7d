//! Tests of rows added to a book.
#![tactic(auto)]

#[cfg(test)]
mod tests;
