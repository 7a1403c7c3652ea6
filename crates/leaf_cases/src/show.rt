// A line of output: a label, a colon, and what the case came to.
use bits::bit_of;
use std::fmt::Display;
use std::io::Result;
use systick::{Ticked, Timer};

pub fn told(rt: &impl Print, label: &str, values: &[impl Display]) -> Result<()> {
    print!(rt; "{label}:")?;
    for value in values {
        print!(rt; " {value}")?;
    }
    println!(rt; "")
}

// The current value after a tick or many, whether one fell to 0, whether SysTick becomes pending; COUNT and control.
pub fn ticked(rt: &impl Print, label: &str, r: Ticked) -> Result<Timer> {
    let next = r.timer;
    let control = next.read_control();
    told(
        rt,
        label,
        &[
            next.read_current(),
            bit_of(r.fell),
            bit_of(r.pends),
            control.value,
        ],
    )?;
    Ok(next)
}
