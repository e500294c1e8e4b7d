//! Tests of books: listings, the book over a case, and the text of a case.
#![tactic(auto)]

#[cfg(test)]
mod expected;
#[cfg(test)]
mod limits;
#[cfg(test)]
mod line_case;
#[cfg(test)]
mod listed;
#[cfg(test)]
mod refusals;
#[cfg(test)]
mod text;
