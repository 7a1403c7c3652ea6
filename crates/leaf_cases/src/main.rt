// Worked values of documents 01 and 02, run on the leaves that need nothing of the rules, a labelled line for each. Frames and scripts have
// programs of their own.
#![tactic(auto)]

mod guard;
mod order;
mod show;
mod skips;
mod ticks;
mod words;

use output::Tolerant;

fn main(rt: HostRuntime) -> std::io::Result<()> {
    let rt = Tolerant(rt);
    words::run(&rt)?;
    order::run(&rt)?;
    ticks::run(&rt)?;
    skips::run(&rt)?;
    guard::run(&rt)?;
    Ok(())
}
