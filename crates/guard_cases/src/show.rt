// A line of output: a label, a colon, numbers.
use std::io::Result;

pub fn two(rt: &impl Print, label: &str, a: u32, b: u32) -> Result<()> {
    println!(rt; "{label}: {a} {b}")
}

pub fn four(rt: &impl Print, label: &str, a: u32, b: u32, c: u32, d: u32) -> Result<()> {
    println!(rt; "{label}: {a} {b} {c} {d}")
}
