//! Writes the listing of the case on standard input. A case that is refused is named on standard error alone.
#![tactic(auto)]

use inputs::limit::read_input;
use listings::bytes::listing_bytes;
use model_text::outcome::{Outcome, outcome_of};
use std::io::Write;

fn list(rt: &HostRuntime) -> anyhow::Result<()> {
    let heap = rt.alloc();
    let input = read_input(heap, rt.stdin())?;
    let outcome = outcome_of(heap, input.as_slice())?;
    if let Outcome::Case(case) = &outcome {
        let bytes = listing_bytes(heap, &case.book)?;
        rt.stdout().write_all(bytes.as_slice())?;
    } else {
        eprint!(rt; "{outcome}")?;
    }
    Ok(())
}

fn main(rt: HostRuntime) -> anyhow::Result<()> {
    list(&rt)
}
