// The second example of README.md: a chip is named, and its last line is enabled, rises and is entered.
use any_chip::{Calls, State};
use mpu::Edition;
use rules::{Part, Setup};
use std::io::Result;

pub fn run(rt: &impl Print) -> Result<()> {
    let s = State::fresh(Setup {
        part: Part::Lines240,
        bits: 3,
        guard: Edition::Pmsav7,
    });
    let s = s.write(4, 0xe000e11c, 0x8000).state;
    let s = s.line(239, 1).state;
    let entered = s.entry();
    println!(rt; "{}\n{}\n{}", entered.value, entered.vector, entered.link)
}
