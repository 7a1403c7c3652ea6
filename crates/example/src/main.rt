// The examples of README.md. Here line 0 of the chip with 55 lines is enabled, rises and is entered.
#![tactic(auto)]

use model::{Calls, State};
use output::Tolerant;
use std::io::Result;

mod named;

fn main(rt: HostRuntime) -> Result<()> {
    let rt = Tolerant(rt);
    let s = State::fresh();
    let s = s.write(4, 0xe000e100, 1).state;
    let s = s.line(0, 1).state;
    let entered = s.entry();
    println!(rt; "{}\n{}\n{}", entered.value, entered.vector, entered.link)?;
    named::run(&rt)
}
