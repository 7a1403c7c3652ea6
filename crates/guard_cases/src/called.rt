// By call on a state with either guard: the register map, verdicts by privilege and priority, and states that are not sound.
use super::show::{four, two};
use any_chip::{Reply, State};
use calls::Calls;
use mpu::Edition;
use rules::{Part, Setup};
use std::io::Result;

fn chip(guard: Edition) -> State {
    State::fresh(Setup {
        part: Part::Lines55,
        bits: 3,
        guard,
    })
}

fn written(s: State, address: u32, value: u32) -> State {
    s.write(4, address, value).state
}

// The refusal and the value.
fn told(rt: &impl Print, label: &str, r: Reply) -> Result<()> {
    two(rt, label, r.refusal, r.value)
}

// The refusals of reads of the words from EDB8 to EDC8.
fn mapped(rt: &impl Print, label: &str, s: State) -> Result<()> {
    print!(rt; "{label}:")?;
    for address in [0xe000edb8, 0xe000edbc, 0xe000edc0, 0xe000edc4, 0xe000edc8] {
        print!(rt; " {}", s.read(4, address).refusal)?;
    }
    println!(rt; "")
}

// Regions 5, for all, and 6, for the privileged, are written through the pairs, and share the block 0x20000060. ED94 is this.
fn overlapping(control: u32) -> State {
    let s = written(chip(Edition::Pmsav8), 0xe000ed98, 4);
    let s = written(s, 0xe000eda4, 0x20000042);
    let s = written(s, 0xe000eda8, 0x20000061);
    let s = written(s, 0xe000edac, 0x20000060);
    let s = written(s, 0xe000edb0, 0x20000081);
    written(s, 0xe000ed94, control)
}

fn asked(
    rt: &impl Print,
    label: &str,
    s: State,
    kind: u32,
    width: u32,
    address: u32,
) -> Result<()> {
    told(rt, label, s.access(kind, width, address))?;
    Ok(())
}

fn moved(r: Reply) -> State {
    r.state
}

fn verdicts(rt: &impl Print) -> Result<()> {
    let s = overlapping(1);
    asked(rt, "read of 0x20000040", s, 0, 1, 0x20000040)?;
    asked(rt, "read of a word at 0x2000005C", s, 0, 4, 0x2000005c)?;
    asked(
        rt,
        "read of 0x20000060, which two regions cover",
        s,
        0,
        1,
        0x20000060,
    )?;
    asked(rt, "fetch of it", s, 2, 2, 0x20000060)?;
    asked(rt, "write of 0x20000080", s, 1, 1, 0x20000080)?;
    asked(rt, "halfword at 0x20000061", s, 0, 2, 0x20000061)?;
    asked(rt, "fetch of width 4", s, 2, 4, 0x20000060)?;
    let user = moved(s.special(4, 1));
    asked(
        rt,
        "unprivileged write of 0x20000080",
        user,
        1,
        1,
        0x20000080,
    )?;
    asked(
        rt,
        "unprivileged write of 0x20000040",
        user,
        1,
        1,
        0x20000040,
    )?;
    let pended = moved(user.svc());
    let handler = moved(pended.entry());
    asked(
        rt,
        "in a handler, write of 0x20000080",
        handler,
        1,
        1,
        0x20000080,
    )?;
    asked(
        rt,
        "in a handler, read of 0x20000060",
        handler,
        0,
        1,
        0x20000060,
    )?;
    let masked = moved(s.special(1, 1));
    asked(
        rt,
        "FAULTMASK, ED94 bit 1 clear: read of 0x20000060",
        masked,
        0,
        1,
        0x20000060,
    )?;
    let guarded = moved(overlapping(3).special(1, 1));
    asked(
        rt,
        "FAULTMASK, ED94 bit 1 set: read of 0x20000060",
        guarded,
        0,
        1,
        0x20000060,
    )?;
    asked(
        rt,
        "ED94 0: write of 0x20000060",
        overlapping(0),
        1,
        1,
        0x20000060,
    )?;
    Ok(())
}

// With the first guard the same words are a base and attributes: region 5 has SIZE 16 and AP 3.
fn old(rt: &impl Print) -> Result<()> {
    let s = written(chip(Edition::Pmsav7), 0xe000ed98, 5);
    let s = written(s, 0xe000ed9c, 0x20000042);
    let s = written(s, 0xe000eda0, 0x03000021);
    let s = written(s, 0xe000ed94, 1);
    told(
        rt,
        "PMSAv7: ED9C after 0x20000042, 5 selected",
        s.read(4, 0xe000ed9c),
    )?;
    told(rt, "PMSAv7: EDA4, the same register", s.read(4, 0xe000eda4))?;
    asked(rt, "PMSAv7: read of 0x20000040", s, 0, 1, 0x20000040)?;
    told(rt, "PMSAv7: write of EDC0", s.write(4, 0xe000edc0, 1))?;
    Ok(())
}

// A word of the guard put into a fresh state: 16 where its edition does not keep it, and the state as it was.
fn handed(
    rt: &impl Print,
    label: &str,
    guard: Edition,
    mair0: u32,
    rbar: u32,
    rlar: u32,
) -> Result<()> {
    let mut s = chip(guard);
    s.core.guard.mair0 = mair0;
    s.core.guard.bases[7] = rbar;
    s.core.guard.attributes[7] = rlar;
    let r = s.access(0, 1, 0x20000000);
    let left = r.state.core.guard;
    four(
        rt,
        label,
        r.refusal,
        left.mair0,
        left.bases[7],
        left.attributes[7],
    )
}

pub fn run(rt: &impl Print) -> Result<()> {
    mapped(
        rt,
        "PMSAv8: reads of EDB8, EDBC, EDC0, EDC4, EDC8",
        chip(Edition::Pmsav8),
    )?;
    mapped(rt, "PMSAv7", chip(Edition::Pmsav7))?;
    told(
        rt,
        "byte of EDC0",
        chip(Edition::Pmsav8).read(1, 0xe000edc0),
    )?;
    told(
        rt,
        "word at EDC2",
        chip(Edition::Pmsav8).read(4, 0xe000edc2),
    )?;
    told(
        rt,
        "byte of EDBC",
        chip(Edition::Pmsav8).read(1, 0xe000edbc),
    )?;
    verdicts(rt)?;
    old(rt)?;
    handed(
        rt,
        "PMSAv8, MAIR0 1, 0x1F, 0x0F",
        Edition::Pmsav8,
        1,
        0x1f,
        0x0f,
    )?;
    handed(rt, "PMSAv7, MAIR0 1", Edition::Pmsav7, 1, 0, 0)?;
    handed(rt, "PMSAv7, base 0x10", Edition::Pmsav7, 0, 0x10, 0)?;
    handed(rt, "PMSAv7, attributes 0x40", Edition::Pmsav7, 0, 0, 0x40)?;
    handed(rt, "PMSAv8, last word 0x10", Edition::Pmsav8, 0, 0, 0x10)?;
    Ok(())
}
