// PMSAv8's registers: what they keep, which region a pair shows, and which words are sound in which edition.
use super::show::{four, two};
use mpu::{Edition, Mpu, MpuRegister};
use std::io::Result;

// The word RBAR of a region, by its number.
fn rbar_of(m: Mpu, n: u32) -> u32 {
    m.write(MpuRegister::Number, n).read(MpuRegister::Rbar(0))
}

fn rlar_of(m: Mpu, n: u32) -> u32 {
    m.write(MpuRegister::Number, n).read(MpuRegister::Rlar(0))
}

// The four pairs are written where n is selected, pair 0 last: with 10 to 13 and 40 to 43.
fn pairs(n: u32) -> Mpu {
    Mpu::fresh()
        .write(MpuRegister::Number, n)
        .write(MpuRegister::Rbar(1), 11)
        .write(MpuRegister::Rbar(2), 12)
        .write(MpuRegister::Rbar(3), 13)
        .write(MpuRegister::Rbar(0), 10)
        .write(MpuRegister::Rlar(1), 41)
        .write(MpuRegister::Rlar(2), 42)
        .write(MpuRegister::Rlar(3), 43)
        .write(MpuRegister::Rlar(0), 40)
}

fn shown(rt: &impl Print, label: &str, n: u32) -> Result<()> {
    let m = pairs(n);
    four(
        rt,
        label,
        rbar_of(m, 0),
        rbar_of(m, 1),
        rbar_of(m, 2),
        rbar_of(m, 3),
    )?;
    four(
        rt,
        "and of 4 to 7",
        rbar_of(m, 4),
        rbar_of(m, 5),
        rbar_of(m, 6),
        rbar_of(m, 7),
    )?;
    four(
        rt,
        "second words of 4 to 7",
        rlar_of(m, 4),
        rlar_of(m, 5),
        rlar_of(m, 6),
        rlar_of(m, 7),
    )?;
    two(
        rt,
        "selected, and read through pair 2",
        m.read(MpuRegister::Number),
        m.read(MpuRegister::Rbar(2)),
    )?;
    Ok(())
}

fn kept(rt: &impl Print) -> Result<()> {
    let m = Mpu::fresh()
        .write(MpuRegister::Number, 7)
        .write(MpuRegister::Rbar(0), 0x35);
    two(
        rt,
        "ED9C after 0x35, and the number",
        m.read(MpuRegister::Rbar(0)),
        m.read(MpuRegister::Number),
    )?;
    let ones = m
        .write(MpuRegister::Rbar(0), 0xffffffff)
        .write(MpuRegister::Rlar(0), 0xffffffff)
        .write(MpuRegister::Mair0, 0xffffffff)
        .write(MpuRegister::Mair1, 0xfffffffe);
    four(
        rt,
        "ED9C, EDA0, EDC0, EDC4 after all ones, the last but for bit 0",
        ones.read(MpuRegister::Rbar(0)),
        ones.read(MpuRegister::Rlar(0)),
        ones.read(MpuRegister::Mair0),
        ones.read(MpuRegister::Mair1),
    )?;
    Ok(())
}

// Whether the words are sound in PMSAv7, in PMSAv8.
fn sound(rt: &impl Print, label: &str, m: Mpu) -> Result<()> {
    two(
        rt,
        label,
        u32::from(m.is_sound(Edition::Pmsav7)),
        u32::from(m.is_sound(Edition::Pmsav8)),
    )?;
    Ok(())
}

fn soundness(rt: &impl Print) -> Result<()> {
    let fresh = Mpu::fresh();
    sound(rt, "fresh: sound in PMSAv7, in PMSAv8", fresh)?;
    sound(rt, "MAIR0 1", fresh.write(MpuRegister::Mair0, 1))?;
    sound(rt, "MAIR1 1", fresh.write(MpuRegister::Mair1, 1))?;
    sound(
        rt,
        "first word 0x1F",
        fresh.write(MpuRegister::Rbar(3), 0x1f),
    )?;
    sound(
        rt,
        "first word 0x20",
        fresh.write(MpuRegister::Rbar(3), 0x20),
    )?;
    sound(
        rt,
        "second word 0xEF",
        fresh.write(MpuRegister::Rlar(3), 0xef),
    )?;
    let mut fourth = fresh;
    fourth.attributes[7] = 0x10;
    sound(rt, "second word 0x10", fourth)?;
    let mut both = fresh;
    both.attributes[7] = 0x2f;
    sound(rt, "second word 0x2F", both)?;
    let mut eighth = fresh;
    eighth.region = 8;
    sound(rt, "region number 8", eighth)?;
    Ok(())
}

pub fn run(rt: &impl Print) -> Result<()> {
    shown(
        rt,
        "pairs written with 5 selected: first words of 0 to 3",
        5,
    )?;
    shown(rt, "with 6", 6)?;
    shown(rt, "with 4", 4)?;
    shown(rt, "with 0", 0)?;
    kept(rt)?;
    soundness(rt)?;
    Ok(())
}
