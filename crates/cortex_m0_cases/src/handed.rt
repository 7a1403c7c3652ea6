// A field that the profile lacks put into a fresh state: 16, whatever the call.
use super::called::fresh;
use any_chip::State;
use calls::Calls;
use std::io::Result;

// The refusals of NMI and of an access event: 16 comes before 19.
fn handed(rt: &impl Print, label: &str, s: State) -> Result<()> {
    let nmi = s.nmi();
    let access = s.access(3, 3, 1);
    println!(rt; "{label}: {} {}", nmi.refusal, access.refusal)
}

fn masks(rt: &impl Print) -> Result<()> {
    let mut s = fresh();
    s.core.masks.primask = true;
    s.core.masks.spsel = true;
    handed(rt, "PRIMASK and CONTROL bit 1", s)?;
    let mut s = fresh();
    s.core.masks.faultmask = true;
    handed(rt, "FAULTMASK", s)?;
    let mut s = fresh();
    s.core.masks.basepri = 0x40;
    handed(rt, "BASEPRI", s)?;
    let mut s = fresh();
    s.core.masks.npriv = true;
    handed(rt, "CONTROL bit 0", s)?;
    Ok(())
}

fn system(rt: &impl Print) -> Result<()> {
    let mut s = fresh();
    s.core.system.sysctrl = 0x16;
    handed(rt, "SYSCTRL 0x16", s)?;
    let mut s = fresh();
    s.core.system.vtable = 0x400;
    handed(rt, "VTABLE", s)?;
    let mut s = fresh();
    s.core.system.cfgctrl = 0x200;
    handed(rt, "CFGCTRL 0x200", s)?;
    let mut s = fresh();
    s.core.system.faultstat = 1;
    handed(rt, "FAULTSTAT", s)?;
    let mut s = fresh();
    s.core.system.hfaultstat = 0x40000000;
    handed(rt, "HFAULTSTAT", s)?;
    let mut s = fresh();
    s.core.system.mmaddr = 4;
    handed(rt, "MMADDR", s)?;
    let mut s = fresh();
    s.core.system.faultaddr = 4;
    handed(rt, "FAULTADDR", s)?;
    Ok(())
}

fn guard(rt: &impl Print) -> Result<()> {
    let mut s = fresh();
    s.core.guard.control = 1;
    handed(rt, "MPU control", s)?;
    let mut s = fresh();
    s.core.guard.region = 1;
    handed(rt, "MPU region", s)?;
    let mut s = fresh();
    s.core.guard.bases[7] = 0x20;
    handed(rt, "MPU base 7", s)?;
    let mut s = fresh();
    s.core.guard.attributes[0] = 1;
    handed(rt, "MPU attributes 0", s)?;
    let mut s = fresh();
    s.core.guard.mair0 = 1;
    handed(rt, "MAIR0", s)?;
    Ok(())
}

fn lists(rt: &impl Print) -> Result<()> {
    let mut s = fresh();
    s.core.group = 1;
    handed(rt, "group setting 1", s)?;
    let mut s = fresh();
    s.pending[4] = true;
    handed(rt, "4 pending", s)?;
    let mut s = fresh();
    s.enabled[6] = true;
    handed(rt, "6 enabled", s)?;
    let mut s = fresh();
    s.level[48] = true;
    handed(rt, "line 32 high", s)?;
    let mut s = fresh();
    s.lost[32] = 1;
    handed(rt, "a pulse of line 32", s)?;
    let mut s = fresh();
    s.priority[16] = 0xc0;
    handed(rt, "priority byte 0xC0", s)?;
    let mut s = fresh();
    s.priority[16] = 0x20;
    handed(rt, "priority byte 0x20", s)?;
    Ok(())
}

pub fn run(rt: &impl Print) -> Result<()> {
    masks(rt)?;
    system(rt)?;
    guard(rt)?;
    lists(rt)?;
    Ok(())
}
