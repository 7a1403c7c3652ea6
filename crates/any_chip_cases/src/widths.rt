// Priority bytes of w bits, w from 3 to 8, and refusal 17 of any other w by every call.
use super::registers::kept_by;
use super::show::looked;
use super::unsound_states::{tried, unsound};
use any_chip::State;
use mpu::Edition;
use rules::{Part, Setup};
use std::io::Result;

fn keeping(bits: u32) -> State {
    State::fresh(Setup {
        part: Part::Lines55,
        bits,
        guard: Edition::Pmsav7,
    })
}

// The top w bits of 0xFF, of a line and of 14 and 15.
fn kept_with(rt: &impl Print, w: u32) -> Result<()> {
    kept_by(
        rt,
        "byte E400 after 0xFF",
        keeping(w),
        1,
        0xe000e400,
        0xff,
        0xe000e400,
    )?;
    kept_by(
        rt,
        "ED20 after ones",
        keeping(w),
        4,
        0xe000ed20,
        0xffffffff,
        0xe000ed20,
    )?;
    Ok(())
}

// 2 and 9 are refused.
pub fn kept(rt: &impl Print) -> Result<()> {
    for w in 2..10 {
        kept_with(rt, w)?;
    }
    Ok(())
}

fn tried_with(rt: &impl Print, bits: u32) -> Result<()> {
    tried(rt, "fresh", keeping(bits))?;
    tried(rt, "active at 20", unsound(keeping(bits)))?;
    Ok(())
}

// PRIMASK is set in the state: the execution priority is told whatever the setup is.
fn looked_with(rt: &impl Print, bits: u32) -> Result<()> {
    let mut s = keeping(bits);
    s.core.masks.primask = true;
    looked(rt, "PRIMASK in the state", s)?;
    Ok(())
}

// "a chip setup with w outside 3 to 8, checked before all others, 15 and 16 too"
pub fn refused(rt: &impl Print) -> Result<()> {
    for bits in [2, 3, 8, 9, 0, 0xffffffff] {
        tried_with(rt, bits)?;
    }
    looked_with(rt, 9)?;
    Ok(())
}
