// Runs the script on standard input through the library 100 times, and prints no lines but the sum of all refusals and values: what
// `tools/speed` times beside the plain version. Every event is a public call, soundness test included.
#![tactic(auto)]

use calls::Calls;
use model::State;
use output::Tolerant;

const STDIN_FILENO: i32 = 0;

const TIMES: u64 = 100;

// One pass over the script. A while: an event moves the offset on by its own length.
fn run_once(script: &[u8]) -> u64 {
    let mut state = State::fresh();
    let mut sum: u64 = 0;
    let mut at = 0;
    while at < script.len() {
        match script::read_event(script, at) {
            Err(_) => {
                return sum;
            }
            Ok((event, next)) => {
                let reply = state.step(event);
                state = reply.state;
                at = next;
                sum = sum.wrapping_add(u64::from(reply.refusal));
                sum = sum.wrapping_add(u64::from(reply.value));
            }
        }
    }
    sum
}

fn run_often(script: &[u8]) -> u64 {
    let mut sum: u64 = 0;
    for _ in 0..TIMES {
        sum = sum.wrapping_add(run_once(script));
    }
    sum
}

// `io` reads the script into fixed memory.
fn main(rt: HostRuntime) -> std::io::Result<()> {
    let rt = Tolerant(rt);
    let mut space = [0u8; 65537];
    let n = io::read_full(STDIN_FILENO, &mut space);
    let sum = run_often(&space[..n]);
    println!(rt; "{sum}")
}
