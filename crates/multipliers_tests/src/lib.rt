//! Tests of judging sets of multipliers.
#![tactic(auto)]

#[cfg(test)]
mod tests;
