// As `timing`, on the state of the chip that the words after its name name: the sum of all refusals and values of 100 runs of the script on
// standard input, every event a public call. A program of its own: in one program with both, the code that they share is no longer compiled
// for the 55 lines of `model`, whose calls then take half as long again.
// The loop that it shares with `timing` would be a public function of one more crate, with a contract on a sum that nothing else reads.
#![tactic(auto)]

use any_chip::State;
use calls::Calls;
use output::Tolerant;
use rules::Setup;

const STDIN_FILENO: i32 = 0;

const TIMES: u64 = 100;

// One pass over the script. A while: an event moves the offset on by its own length.
fn run_once(script: &[u8], setup: Setup) -> u64 {
    let mut state = State::fresh(setup);
    let mut sum: u64 = 0;
    let mut at = 0;
    while at < script.len() {
        match script::read_event(script, at) {
            Err(_) => {
                return sum;
            }
            Ok((event, next)) => {
                let reply = state.step(event);
                state = reply.state;
                at = next;
                sum = sum.wrapping_add(u64::from(reply.refusal));
                sum = sum.wrapping_add(u64::from(reply.value));
            }
        }
    }
    sum
}

fn run_often(script: &[u8], setup: Setup) -> u64 {
    let mut sum: u64 = 0;
    for _ in 0..TIMES {
        sum = sum.wrapping_add(run_once(script, setup));
    }
    sum
}

// `io` reads the script into fixed memory.
fn main(rt: HostRuntime) -> std::io::Result<()> {
    let mut space = [0u8; 65537];
    let n = io::read_full(STDIN_FILENO, &mut space);
    let words = setup_words::named(&rt);
    let sum = run_often(&space[..n], words.setup);
    let rt = Tolerant(rt);
    println!(rt; "{sum}")
}
