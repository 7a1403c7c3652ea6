// Deep nests. Priorities are read now, not as at entry: a handler that makes its own byte 0xE0 can be interrupted by every exception with byte 0,
// so that at last every exception of the chip is nested.
use super::registers::{chip, written};
use super::show::{looked, told};
use any_chip::State;
use calls::Calls;
use rules::Part;
use script::Event;
use std::io::Result;

// Every line enabled, the old chip refusing the third word on; SYSHNDCTRL bits 18:16 enable 4, 5 and 6.
fn all_enabled(part: Part) -> State {
    let mut t = written(chip(part), 0xe000ed24, 0x70000);
    for k in 0..8 {
        t = written(t, 0xe000e100 + 4 * k, 0xffffffff);
    }
    t
}

// The k-th event. It makes pending: lines 0 to 239 by SWTRIG; 4, 5, 6, 11; 14 and 15 by INTCTRL bits 28 and 26; 3, because 4 is active at 0xE0, not
// below the execution priority; 2. Then 247 returns to a handler, and one to thread mode.
fn event_of(k: u32) -> Event {
    if k < 240 {
        return Event::Write(4, 0xe000ef00, k);
    }
    if 248 <= k && k < 495 {
        return Event::Return(0xfffffff1);
    }
    match k {
        240 => Event::Fault(0, 0),
        241 => Event::Fault(8, 0),
        242 => Event::Fault(16, 0),
        243 => Event::Svc,
        244 => Event::Write(4, 0xe000ed04, 0x10000000),
        245 => Event::Write(4, 0xe000ed04, 0x4000000),
        246 => Event::Fault(1, 0x20000000),
        247 => Event::Nmi,
        _ => Event::Return(0xfffffff9),
    }
}

// The priority byte of what it makes pending; 3 and 2 have none, and there is no register at 0.
fn byte_of(k: u32) -> u32 {
    if k < 240 {
        return 0xe000e400 + k;
    }
    match k {
        240 => 0xe000ed18,
        241 => 0xe000ed19,
        242 => 0xe000ed1a,
        243 => 0xe000ed1f,
        244 => 0xe000ed22,
        245 => 0xe000ed23,
        _ => 0,
    }
}

// What is pending enters, and makes its byte 0xE0. The old chip has nothing to enter for a line above 54, nor has any chip after a return.
fn after(s: State, k: u32) -> State {
    let asked = s.step(event_of(k));
    let begun = asked.state.entry();
    begun.state.write(1, byte_of(k), 0xe0).state
}

// After the events from one on.
fn ran(rt: &impl Print, label: &str, s: State, from: u32, end: u32) -> Result<State> {
    let mut t = s;
    for k in from..end {
        t = after(t, k);
    }
    looked(rt, label, t)?;
    Ok(t)
}

// The lines and eight system exceptions: 248, 63 on the old chip, which refuses to return to a handler once one is left.
pub fn nest(rt: &impl Print, part: Part) -> Result<()> {
    let s = ran(rt, "every line nested", all_enabled(part), 0, 240)?;
    let s = ran(rt, "4, 5, 6, 11, 14, 15 nested too", s, 240, 246)?;
    let s = ran(rt, "3, 2 nested too", s, 246, 248)?;
    told(rt, "fault, every exception nested", s.fault(0, 0))?;
    let s = ran(rt, "all but one returned", s, 248, 495)?;
    ran(rt, "none nested", s, 495, 496)?;
    Ok(())
}
