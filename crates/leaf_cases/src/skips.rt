// Crate systick: many ticks at once, by worked counts, and beside as many single ticks.
use super::show::{ticked, told};
use std::io::Result;
use systick::{Ticked, Timer};

fn skipped(rt: &impl Print, label: &str, t: Timer, count: u32) -> Result<()> {
    ticked(rt, label, t.skip(count))?;
    Ok(())
}

// Counting, with TICKINT or without.
fn timer(control: u32, reload: u32, current: u32) -> Timer {
    Timer {
        control,
        reload,
        current,
        count: false,
    }
}

fn worked(rt: &impl Print) -> Result<()> {
    let t = timer(3, 5, 0);
    skipped(
        rt,
        "0 ticks from 0, reload 5: current, fell, pends, STCTRL",
        t,
        0,
    )?;
    skipped(rt, "1", t, 1)?;
    skipped(rt, "5, the reload value", t, 5)?;
    skipped(rt, "6, one more", t, 6)?;
    skipped(rt, "7", t, 7)?;
    skipped(rt, "4294967295, 3 over", t, 4294967295)?;
    skipped(rt, "6 without TICKINT", timer(1, 5, 0), 6)?;
    skipped(rt, "6 with the timer off", timer(6, 5, 0), 6)?;
    skipped(rt, "99 from 100, reload 5", timer(3, 5, 100), 99)?;
    skipped(rt, "100 from 100, reload 5", timer(3, 5, 100), 100)?;
    skipped(rt, "101 from 100, reload 5", timer(3, 5, 100), 101)?;
    skipped(
        rt,
        "4294967295 from 5, reload 0",
        timer(3, 0, 5),
        4294967295,
    )?;
    skipped(
        rt,
        "4294967295 from 0, reload 0",
        timer(3, 0, 0),
        4294967295,
    )?;
    Ok(())
}

// The largest values that are kept, and the largest that the fields hold.
fn large(rt: &impl Print) -> Result<()> {
    let t = timer(3, 0xffffff, 0);
    skipped(rt, "16777215 from 0, reload 0xFFFFFF", t, 0xffffff)?;
    skipped(rt, "16777216", t, 0x1000000)?;
    skipped(rt, "4294967295", t, 0xffffffff)?;
    let wide = timer(3, 0xffffffff, 0);
    skipped(rt, "4294967295 from 0, reload 0xFFFFFFFF", wide, 0xffffffff)?;
    skipped(
        rt,
        "4294967295 from 4294967295",
        timer(3, 0xffffffff, 0xffffffff),
        0xffffffff,
    )?;
    skipped(rt, "4294967295 from 1", timer(3, 0xffffffff, 1), 0xffffffff)?;
    Ok(())
}

// Some ticks and one more.
fn one_more(some: Ticked) -> Ticked {
    let t = some.timer;
    let one = t.tick();
    Ticked {
        timer: one.timer,
        fell: some.fell || one.fell,
        pends: some.pends || one.pends,
    }
}

// Of the counts 0 to 39, how many leave what so many single ticks leave, and fell or pended as one of them did.
fn alike(t: Timer) -> u32 {
    let mut singly = Ticked {
        timer: t,
        fell: false,
        pends: false,
    };
    let mut sum: u32 = 0;
    for count in 0..40 {
        if t.skip(count) == singly {
            sum = sum.wrapping_add(1);
        }
        singly = one_more(singly);
    }
    sum
}

// The timer of a number: control bits below 8, reload value below 7, current value below 12, and COUNT.
fn numbered(i: u32) -> Timer {
    Timer {
        control: i % 8,
        reload: i / 8 % 7,
        current: i / 56 % 12,
        count: i / 672 % 2 == 1,
    }
}

// The sum over all 1,344 timers.
fn all_alike() -> u32 {
    (0..1344).fold(0, |sum: u32, i| sum.wrapping_add(alike(numbered(i))))
}

pub fn run(rt: &impl Print) -> Result<()> {
    worked(rt)?;
    large(rt)?;
    told(
        rt,
        "counts on small timers, and those that leave what so many single ticks leave",
        &[1344 * 40, all_alike()],
    )?;
    Ok(())
}
