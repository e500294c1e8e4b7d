//! Tests of the field layer: certificates, cases and listings, and the text of a case.
#![tactic(auto)]

#[cfg(test)]
mod cases;
#[cfg(test)]
mod certificates;
#[cfg(test)]
mod edit;
#[cfg(test)]
mod heads;
#[cfg(test)]
mod lengths;
#[cfg(test)]
mod line_case;
#[cfg(test)]
mod listings;
#[cfg(test)]
mod numbers;
#[cfg(test)]
mod order;
#[cfg(test)]
mod parts;
#[cfg(test)]
mod plain;
#[cfg(test)]
mod precedence;
#[cfg(test)]
mod ranges;
#[cfg(test)]
mod references;
#[cfg(test)]
mod tags;
#[cfg(test)]
mod text;
#[cfg(test)]
mod truncation;
#[cfg(test)]
mod worked_case;
