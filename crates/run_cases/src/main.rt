// Runs of a script by call on a setup that keeps so many bits, a labelled line for each with what the run writes after it: the refusal, and whether
// the script has ended. What must be printed was worked out from documents 01 and 02.
#![tactic(auto)]

use mpu::Edition;
use output::Tolerant;
use rules::{Part, Setup};
use std::io::{Result, Write};

// The first call of a run.
fn run(rt: &impl Print, label: &str, bits: u32, script: &[u8], out: &mut [u8]) -> Result<()> {
    let setup = Setup {
        part: Part::Lines55,
        bits,
        guard: Edition::Pmsav7,
    };
    let r = any_run::run_some(script, any_run::start(setup), out);
    let ended = if r.ended { "ended" } else { "not ended" };
    println!(rt; "{bits} bits, {label}: {} {ended}", r.refusal)?;
    std::io::writer(rt).write_all(&out[..r.wrote])
}

// A script of one NMI, 4; the empty one; one of 65,537 bytes, which 15 refuses; and an NMI with room for no line, which takes 56. "17 .. checked before
// all others, 15 and 16 too".
fn main(rt: HostRuntime) -> Result<()> {
    let rt = Tolerant(rt);
    let long = [4u8; 65537];
    let mut out = [0u8; 128];
    let mut small = [0u8; 55];
    run(&rt, "NMI", 2, b"\x04", &mut out)?;
    run(&rt, "NMI", 9, b"\x04", &mut out)?;
    run(&rt, "no event", 9, b"", &mut out)?;
    run(&rt, "no event", 3, b"", &mut out)?;
    run(&rt, "65,537 bytes", 2, &long, &mut out)?;
    run(&rt, "65,537 bytes", 8, &long, &mut out)?;
    run(&rt, "NMI", 3, b"\x04", &mut out)?;
    run(&rt, "NMI", 8, b"\x04", &mut out)?;
    run(&rt, "NMI, no room", 0, b"\x04", &mut small)?;
    run(&rt, "NMI, no room", 8, b"\x04", &mut small)
}
