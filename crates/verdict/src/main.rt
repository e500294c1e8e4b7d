//! Judges the certificates behind the case on standard input.
#![tactic(auto)]

use inputs::limit::read_input;
use verdict_text::output::output_of;

fn judge(rt: &HostRuntime) -> anyhow::Result<()> {
    let heap = rt.alloc();
    let input = read_input(heap, rt.stdin())?;
    let text = output_of(heap, input.as_slice())?;
    rt.print(&text)?;
    Ok(())
}

fn main(rt: HostRuntime) -> anyhow::Result<()> {
    judge(&rt)
}
