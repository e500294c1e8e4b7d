//! What a certificate holds and how its numbers are judged: the faults of the docket layer, the numbers, the checks, the bound and weak duality.
#![tactic(auto)]

pub mod duality;
pub mod fault;
pub mod value;
