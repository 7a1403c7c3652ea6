// Runs the script on standard input and writes its text to standard output.
#![tactic(auto)]

const STDIN_FILENO: i32 = 0;

const STDOUT_FILENO: i32 = 1;

// The buffer has room for a line, so each call ends the script or moves on in it. A while: the script's end ends it, which is no index. The text is
// bytes in fixed memory, which `io` writes in one call, as std's writer would.
fn run_all(script: &[u8]) {
    let mut out = io::large_buffer();
    let mut progress = run::start();
    while !progress.ended {
        progress = run::run_some(script, progress, &mut out);
        io::write_all(STDOUT_FILENO, &out[..progress.wrote]);
    }
}

// One byte more than a script may have is enough to know that it is too long.
fn main() {
    let mut space = [0u8; 65537];
    let n = io::read_full(STDIN_FILENO, &mut space);
    run_all(&space[..n]);
}
