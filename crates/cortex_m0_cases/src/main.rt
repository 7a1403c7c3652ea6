// Worked cases of document 02, E10, run by call on the state of a Cortex-M0, a labelled line for each: what must be printed was worked out from
// documents 01 and 02.
#![tactic(auto)]

mod called;
mod handed;
mod show;

use output::Tolerant;

fn main(rt: HostRuntime) -> std::io::Result<()> {
    let rt = Tolerant(rt);
    called::run(&rt)?;
    handed::run(&rt)
}
