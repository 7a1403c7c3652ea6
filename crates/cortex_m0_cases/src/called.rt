// The setup, the registers, PRIMASK and CONTROL, faults, vectors and link values, access events.
use super::show::{entered, told};
use any_chip::{Reply, State};
use calls::Calls;
use mpu::Edition;
use rules::{Part, Setup};
use std::io::Result;

fn named(bits: u32, guard: Edition) -> State {
    State::fresh(Setup {
        part: Part::CortexM0,
        bits,
        guard,
    })
}

pub fn fresh() -> State {
    named(3, Edition::Pmsav7)
}

fn moved(r: Reply) -> State {
    r.state
}

fn written(s: State, address: u32, value: u32) -> State {
    moved(s.write(4, address, value))
}

// "two priority bits (fixed by the profile, so refusal 17 never touches it)": whatever bits and guard the setup names.
fn setups(rt: &impl Print) -> Result<()> {
    told(rt, "bits 9, PMSAv8: NMI", named(9, Edition::Pmsav8).nmi())?;
    let s = written(named(9, Edition::Pmsav8), 0xe000e400, 0xffffffff);
    told(rt, "bits 9: E400 after 0xFFFFFFFF", s.read(4, 0xe000e400))?;
    told(
        rt,
        "bits 0: line 31 rises",
        named(0, Edition::Pmsav7).line(31, 1),
    )?;
    told(rt, "line 32 rises", fresh().line(32, 1))?;
    told(rt, "lost pulses of line 32", fresh().lost(32))?;
    Ok(())
}

// ED14 is always 0x208, ED0C reads 0xFA050000, ED08 is not there.
fn registers(rt: &impl Print) -> Result<()> {
    told(rt, "ED14 written", fresh().write(4, 0xe000ed14, 0xffffffff))?;
    told(
        rt,
        "ED14 read",
        written(fresh(), 0xe000ed14, 0xffffffff).read(4, 0xe000ed14),
    )?;
    told(
        rt,
        "ED0C after 0x05FA0700",
        written(fresh(), 0xe000ed0c, 0x05fa0700).read(4, 0xe000ed0c),
    )?;
    told(rt, "ED00", fresh().read(4, 0xe000ed00))?;
    told(rt, "ED04", fresh().read(4, 0xe000ed04))?;
    told(rt, "ED08", fresh().write(4, 0xe000ed08, 0x400))?;
    told(rt, "ED90", fresh().read(4, 0xe000ed90))?;
    told(rt, "EF00", fresh().write(4, 0xe000ef00, 1))?;
    told(rt, "byte of E400", fresh().read(1, 0xe000e400))?;
    told(rt, "halfword of E400", fresh().read(2, 0xe000e400))?;
    told(rt, "byte of ED1F", fresh().write(1, 0xe000ed1f, 0x40))?;
    told(rt, "byte of ED18", fresh().write(1, 0xe000ed18, 0x40))?;
    Ok(())
}

fn special_registers(rt: &impl Print) -> Result<()> {
    told(rt, "special 1", fresh().special(1, 1))?;
    told(rt, "special 2", fresh().special(2, 0x40))?;
    told(rt, "special 3", fresh().special(3, 0x40))?;
    let s = moved(fresh().special(4, 3));
    told(rt, "ED00 after CONTROL 3", s.read(4, 0xe000ed00))?;
    Ok(())
}

// Line 0 enabled and risen.
fn risen(s: State) -> State {
    moved(written(s, 0xe000e100, 1).line(0, 1))
}

fn entries(rt: &impl Print) -> Result<()> {
    let held = moved(risen(fresh()).special(0, 1));
    entered(rt, "PRIMASK 1: entry", held.entry())?;
    entered(rt, "PRIMASK 0: entry", moved(held.special(0, 0)).entry())?;
    entered(
        rt,
        "CONTROL 3: entry",
        risen(moved(fresh().special(4, 3))).entry(),
    )?;
    let handler = moved(risen(fresh()).entry());
    entered(rt, "NMI over it", moved(handler.nmi()).entry())?;
    told(rt, "ED04 in the handler", handler.read(4, 0xe000ed04))?;
    told(rt, "return", handler.return_(0xfffffff9))?;
    Ok(())
}

// "no fault status or address kept": FAULTSTAT, HFAULTSTAT, MMADDR and FAULTADDR after a fault of bit 1.
fn faults(rt: &impl Print) -> Result<()> {
    let r = fresh().fault(1, 0x20000000);
    told(rt, "fault 1", r)?;
    let left = r.state.core.system;
    let (mmaddr, faultaddr) = (left.mmaddr, left.faultaddr);
    println!(rt;
        "status after it: {} {} {mmaddr} {faultaddr}",
        left.faultstat, left.hfaultstat
    )?;
    let hard = r.state;
    entered(rt, "HardFault", hard.entry())?;
    told(
        rt,
        "fault 25 in HardFault",
        moved(hard.entry()).fault(25, 0),
    )?;
    told(rt, "fault 2 in HardFault", moved(hard.entry()).fault(2, 0))?;
    told(rt, "SVC", fresh().svc())?;
    told(rt, "SVC with PRIMASK", moved(fresh().special(0, 1)).svc())?;
    Ok(())
}

// 19 before 6, 1 and 2.
fn accesses(rt: &impl Print) -> Result<()> {
    told(rt, "access", fresh().access(0, 4, 0x20000000))?;
    told(rt, "access of kind 3", fresh().access(3, 4, 0))?;
    told(rt, "access of width 3", fresh().access(0, 3, 0))?;
    told(rt, "access at 1", fresh().access(1, 4, 1))?;
    Ok(())
}

pub fn run(rt: &impl Print) -> Result<()> {
    setups(rt)?;
    registers(rt)?;
    special_registers(rt)?;
    entries(rt)?;
    faults(rt)?;
    accesses(rt)?;
    Ok(())
}
