// Lines and registers: which there are, what they keep, and the last line's entry.
use super::show::{Case, looked, told};
use any_chip::State;
use calls::Calls;
use mpu::Edition;
use rules::{Part, Setup};
use std::io::Result;

pub fn chip(part: Part) -> State {
    State::fresh(Setup {
        part,
        bits: 3,
        guard: Edition::Pmsav7,
    })
}

// A word is written.
pub fn written(s: State, address: u32, value: u32) -> State {
    s.write(4, address, value).state
}

fn rises(rt: &impl Print, label: &str, part: Part, line: u32) -> Result<()> {
    told(rt, label, chip(part).line(line, 1))?;
    Ok(())
}

fn kept(
    rt: &impl Print,
    label: &str,
    part: Part,
    width: u32,
    at: u32,
    value: u32,
    from: u32,
) -> Result<()> {
    kept_by(rt, label, chip(part), width, at, value, from)?;
    Ok(())
}

// The refusal of a write; then that of a read, and what is read.
pub fn kept_by(
    rt: &impl Print,
    label: &str,
    s: State,
    width: u32,
    at: u32,
    value: u32,
    from: u32,
) -> Result<()> {
    let w = s.write(width, at, value);
    let r = w.state.read(width, from);
    let setup = w.state.setup;
    let case = Case { setup, label };
    println!(rt; "{case} {} {} {:#010x}", w.refusal, r.refusal, r.value)
}

// A line is enabled, by its bit of a word, and rises.
fn risen(s: State, address: u32, bit: u32, line: u32) -> State {
    written(s, address, bit).line(line, 1).state
}

fn enters(rt: &impl Print, risen: State) -> Result<()> {
    let s = told(rt, "entry of the last line", risen.entry())?;
    looked(rt, "top, depth, execution priority", s)?;
    Ok(())
}

fn enters_by(rt: &impl Print, label: &str, risen: State, vtable: u32) -> Result<()> {
    told(rt, label, written(risen, 0xe000ed08, vtable).entry())?;
    Ok(())
}

// "Refusals: 6 above 239"; above 54 on the old chip.
pub fn lines(rt: &impl Print) -> Result<()> {
    rises(rt, "line 239 rises", Part::Lines240, 239)?;
    rises(rt, "line 240 rises", Part::Lines240, 240)?;
    rises(rt, "line 54 rises", Part::Lines55, 54)?;
    rises(rt, "line 55 rises", Part::Lines55, 55)?;
    rises(rt, "line 239 rises", Part::Lines55, 239)?;
    Ok(())
}

// Line 239 is bit 239 - 224 = 15 of the eighth word, line 54 is bit 54 - 32 = 22 of the second. Exception 255 at 4 x 255 = 0x3FC, 70 at 4 x 70 =
// 0x118. "VTABLE keeps bits 29:10", 29:9 on the old chip: of ones 0x3FFFFC00 and 0x3FFFFE00.
pub fn entries(rt: &impl Print) -> Result<()> {
    let last = risen(chip(Part::Lines240), 0xe000e11c, 0x8000, 239);
    let old = risen(chip(Part::Lines55), 0xe000e104, 0x400000, 54);
    enters(rt, last)?;
    enters(rt, old)?;
    enters_by(rt, "entry, VTABLE 0x3FFFFFFF", last, 0x3fffffff)?;
    enters_by(rt, "entry, VTABLE 0xFFFFFFFF", last, 0xffffffff)?;
    enters_by(rt, "entry, VTABLE 0x3FFFFFFF", old, 0x3fffffff)?;
    Ok(())
}

// "bits 7:5 are kept" of a byte, and bit 9 of VTABLE by the old chip only.
pub fn kept_bits(rt: &impl Print) -> Result<()> {
    kept(
        rt,
        "byte E4EF after 0xFF",
        Part::Lines240,
        1,
        0xe000e4ef,
        0xff,
        0xe000e4ef,
    )?;
    kept(
        rt,
        "byte E4F0 after 0xFF",
        Part::Lines240,
        1,
        0xe000e4f0,
        0xff,
        0xe000e4f0,
    )?;
    kept(
        rt,
        "VTABLE after 0x200",
        Part::Lines240,
        4,
        0xe000ed08,
        0x200,
        0xe000ed08,
    )?;
    kept(
        rt,
        "VTABLE after 0x200",
        Part::Lines55,
        4,
        0xe000ed08,
        0x200,
        0xe000ed08,
    )?;
    Ok(())
}

// "SWTRIG has no effect above 239"; it takes bits 8:0, so 0x2EF is 239 again. INTCTRL bit 11 alone: no line is pending.
pub fn triggers(rt: &impl Print) -> Result<()> {
    kept(
        rt,
        "E21C after SWTRIG 239",
        Part::Lines240,
        4,
        0xe000ef00,
        239,
        0xe000e21c,
    )?;
    kept(
        rt,
        "E21C after SWTRIG 0x2EF",
        Part::Lines240,
        4,
        0xe000ef00,
        0x2ef,
        0xe000e21c,
    )?;
    kept(
        rt,
        "INTCTRL after SWTRIG 240",
        Part::Lines240,
        4,
        0xe000ef00,
        240,
        0xe000ed04,
    )?;
    kept(
        rt,
        "E204 after SWTRIG 54",
        Part::Lines55,
        4,
        0xe000ef00,
        54,
        0xe000e204,
    )?;
    kept(
        rt,
        "INTCTRL after SWTRIG 55",
        Part::Lines55,
        4,
        0xe000ef00,
        55,
        0xe000ed04,
    )?;
    Ok(())
}
