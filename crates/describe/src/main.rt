//! Shows the case on standard input, a line for each record.
#![tactic(auto)]

use case_text::outcome::outcome_of;
use inputs::limit::read_input;

fn show(rt: &HostRuntime) -> anyhow::Result<()> {
    let heap = rt.alloc();
    let input = read_input(heap, rt.stdin())?;
    let outcome = outcome_of(heap, input.as_slice())?;
    rt.print(&outcome)?;
    Ok(())
}

fn main(rt: HostRuntime) -> anyhow::Result<()> {
    show(&rt)
}
