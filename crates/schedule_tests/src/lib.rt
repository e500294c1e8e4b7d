//! Tests of schedules against a book.
#![tactic(auto)]

#[cfg(test)]
mod tests;
