// Pulses that are lost on the chip's last line.
use super::registers::chip;
use super::show::told;
use any_chip::State;
use calls::Calls;
use rules::Part;
use std::io::Result;

// Pending and low again, with a count.
fn counted(part: Part, line: u32, count: u16) -> State {
    let mut s = chip(part).line(line, 1).state.line(line, 0).state;
    let i = line as usize;
    if i < 240 {
        s.lost[i] = count;
    }
    s
}

// "holding at 65,535": 65,534 and two more. Then the line past the last.
pub fn lost(rt: &impl Print, part: Part, line: u32, past: u32) -> Result<()> {
    let s = counted(part, line, 65534);
    told(rt, "count of the last line", s.lost(line))?;
    let s = s.line(line, 1).state;
    told(rt, "after a lost rise", s.lost(line))?;
    let s = s.line(line, 0).state.line(line, 1).state;
    told(rt, "after one more", s.lost(line))?;
    told(rt, "count of the first line", s.lost(0))?;
    told(rt, "count of the line past the last", s.lost(past))?;
    Ok(())
}
