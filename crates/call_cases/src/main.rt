// Runs the commands of standard input on a state of the model, one to a line, and prints each with its answer. `stdin` says what they
// are; `stdout` holds the values that document 01 gives.
#![tactic(auto)]

use command::Bench;
use model::State;
use output::Tolerant;

mod command;
mod parse;
mod poke;
mod scripts;
mod show;

const STDIN_FILENO: i32 = 0;

fn run(rt: &impl Print, text: &[u8]) -> std::io::Result<()> {
    let mut bench = Bench {
        state: State::fresh(),
        kept: State::fresh(),
    };
    for line in text.split(|b| *b == b'\n') {
        bench = bench.obeyed(rt, line)?;
    }
    Ok(())
}

// `io` reads the input into fixed memory.
fn main(rt: HostRuntime) -> std::io::Result<()> {
    let rt = Tolerant(rt);
    let mut space = io::large_buffer();
    let n = io::read_full(STDIN_FILENO, &mut space);
    run(&rt, &space[..n])
}
