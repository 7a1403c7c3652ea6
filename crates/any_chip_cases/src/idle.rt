// Many ticks at once.
use super::registers::chip;
use super::show::told;
use any_chip::State;
use calls::Calls;
use rules::Part;
use std::io::Result;
use systick::Timer;

// Counting, with TICKINT.
fn counting(part: Part, reload: u32, current: u32) -> State {
    let timer = Timer {
        control: 3,
        reload,
        current,
        count: false,
    };
    let mut s = chip(part);
    s.core.timer = timer;
    s
}

// A fall to 0 makes SysTick pending, once.
pub fn skips(rt: &impl Print, part: Part) -> Result<()> {
    told(rt, "0 ticks from 0, reload 5", counting(part, 5, 0).skip(0))?;
    let s = told(rt, "5 ticks", counting(part, 5, 0).skip(5))?;
    told(rt, "entry after 5 ticks", s.entry())?;
    let s = told(rt, "6 ticks", counting(part, 5, 0).skip(6))?;
    told(rt, "entry after 6 ticks", s.entry())?;
    told(
        rt,
        "100 ticks from 5, reload 0",
        counting(part, 0, 5).skip(100),
    )?;
    told(
        rt,
        "4294967295 ticks from 0, reload 0xFFFFFF",
        counting(part, 0xffffff, 0).skip(4294967295),
    )?;
    Ok(())
}
