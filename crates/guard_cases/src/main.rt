// Worked cases of document 02, E12, run by call on the guard itself and on the state of any chip, a labelled line for each: what must be printed was worked
// out from documents 01 and 02.
#![tactic(auto)]

mod called;
mod registers;
mod show;
mod verdicts8;

use output::Tolerant;

fn main(rt: HostRuntime) -> std::io::Result<()> {
    let rt = Tolerant(rt);
    verdicts8::run(&rt)?;
    registers::run(&rt)?;
    called::run(&rt)
}
