// Runs the script on standard input on the chip that the words after the program's name name, and writes its text to standard output.
#![tactic(auto)]

use rules::Setup;

const STDIN_FILENO: i32 = 0;

const STDOUT_FILENO: i32 = 1;

// The buffer has room for a line, so each call ends the script or moves on in it. A while: the script's end ends it, which is no index. The text is
// bytes in fixed memory, which `io` writes in one call, as std's writer would. `bench` has the same loop over `run`: a trait for the two libraries'
// functions, with a contract, would be longer.
fn run_all(setup: Setup, script: &[u8]) {
    let mut out = io::large_buffer();
    let mut progress = any_run::start(setup);
    while !progress.ended {
        progress = any_run::run_some(script, progress, &mut out);
        io::write_all(STDOUT_FILENO, &out[..progress.wrote]);
    }
}

// One byte more than a script may have is enough to know that it is too long.
fn main(rt: HostRuntime) {
    let words = setup_words::named(&rt);
    if words.wrong {
        io::write_all(
            STDOUT_FILENO,
            b"usage: simulate [--core m3|m0] [--lines 55|240] [--bits N] [--guard pmsav7|pmsav8]\n",
        );
        return;
    }
    let mut space = [0u8; 65537];
    let n = io::read_full(STDIN_FILENO, &mut space);
    run_all(words.setup, &space[..n]);
}
