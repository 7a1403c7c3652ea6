// Crate systick: ticks, and what its registers keep.
use super::show::{ticked, told};
use std::io::Result;
use systick::Timer;

fn counting(rt: &impl Print, t: Timer) -> Result<Timer> {
    let label = "first tick from reload 3: current, fell, pends, STCTRL";
    let three = ticked(rt, label, t.tick())?;
    let two = ticked(rt, "second", three.tick())?;
    let one = ticked(rt, "third", two.tick())?;
    let zero = ticked(rt, "fourth", one.tick())?;
    ticked(rt, "fifth", zero.tick())
}

// What reading STCTRL clears, and what writing does not.
fn registers(rt: &impl Print, t: Timer) -> Result<()> {
    let first = t.read_control();
    let seen = first.timer;
    let second = seen.read_control();
    let written = t.write_control(0xfffffffa).read_control();
    let cleared = t.write_current(5).read_control();
    told(
        rt,
        "STCTRL, again; after 0xFFFFFFFA is written to it; after STCURRENT is written",
        &[first.value, second.value, written.value, cleared.value],
    )
}

pub fn run(rt: &impl Print) -> Result<()> {
    let t = Timer::fresh().write_reload(0xff000003).write_control(3);
    registers(rt, counting(rt, t)?)?;
    let t = counting(rt, t.write_control(1))?;
    ticked(rt, "sixth, without TICKINT", t.tick())?;
    let t = Timer::fresh().write_control(3);
    ticked(rt, "first from reload 0", t.tick())?;
    Ok(())
}
