// Crates mpu and verdicts: region match, rights, the default map; then the registers.
use super::show::told;
use mpu::{Edition, Mpu, MpuRegister};
use std::io::Result;
use verdicts::{Access, Request};

// Enabled, region 0 at 0x20000000 with these attributes.
fn region(attributes: u32) -> Mpu {
    Mpu::fresh()
        .write(MpuRegister::Control, 1)
        .write(MpuRegister::Base, 0x20000000)
        .write(MpuRegister::Attributes, attributes)
}

fn verdict(m: Mpu, access: Access, address: u32, privileged: bool, negative: bool) -> u32 {
    let request = Request {
        access,
        address,
        privileged,
    };
    u32::from(editions::verdict(Edition::Pmsav7, m, request, negative))
}

// Unprivileged, at a priority that is not negative.
fn read(m: Mpu, address: u32) -> u32 {
    verdict(m, Access::Read, address, false, false)
}

fn fetch(m: Mpu, address: u32) -> u32 {
    verdict(m, Access::Fetch, address, false, false)
}

fn matching(rt: &impl Print) -> Result<()> {
    let m = region(0x03000113);
    told(
        rt,
        "SIZE 9, bits 15:8 = 1: reads of 0x2000007F, 80, 3FF, 400",
        &[
            read(m, 0x2000007f),
            read(m, 0x20000080),
            read(m, 0x200003ff),
            read(m, 0x20000400),
        ],
    )?;
    told(
        rt,
        "reads at SIZE 7, 6 with bits 15:8 = 0xFF; at SIZE 3; with bit 0 clear",
        &[
            read(region(0x0300ff0f), 0x20000000),
            read(region(0x0300ff0d), 0x20000000),
            read(region(0x03000007), 0x20000000),
            read(region(0x03000012), 0x20000000),
        ],
    )?;
    let over = region(0x03000013)
        .write(MpuRegister::Base, 0x20000011)
        .write(MpuRegister::Attributes, 0x0000023f);
    told(
        rt,
        "SIZE 31, bits 15:8 = 2, AP 0 over that: reads of 0, 0x20000000, 0x20000400, 0x40000000",
        &[
            read(over, 0),
            read(over, 0x20000000),
            read(over, 0x20000400),
            read(over, 0x40000000),
        ],
    )?;
    Ok(())
}

// Read and write: privileged, then the others.
fn row(rt: &impl Print, label: &str, attributes: u32) -> Result<()> {
    let m = region(attributes);
    told(
        rt,
        label,
        &[
            verdict(m, Access::Read, 0x20000000, true, false),
            verdict(m, Access::Write, 0x20000000, true, false),
            verdict(m, Access::Read, 0x20000000, false, false),
            verdict(m, Access::Write, 0x20000000, false, false),
        ],
    )?;
    Ok(())
}

fn rights(rt: &impl Print) -> Result<()> {
    row(rt, "AP 0", 0x00000013)?;
    row(rt, "AP 1", 0x01000013)?;
    row(rt, "AP 2", 0x02000013)?;
    row(rt, "AP 3", 0x03000013)?;
    row(rt, "AP 4", 0x04000013)?;
    row(rt, "AP 5", 0x05000013)?;
    row(rt, "AP 6", 0x06000013)?;
    row(rt, "AP 7", 0x07000013)?;
    told(
        rt,
        "fetch at AP 1, 2, 7; at AP 3 with bit 28",
        &[
            fetch(region(0x01000013), 0x20000000),
            fetch(region(0x02000013), 0x20000000),
            fetch(region(0x07000013), 0x20000000),
            fetch(region(0x13000013), 0x20000000),
        ],
    )?;
    Ok(())
}

fn default_map(rt: &impl Print) -> Result<()> {
    let off = Mpu::fresh();
    told(
        rt,
        "default map, fetch of 0x3FFFFFFE, 0x40000000, 0x5FFFFFFE, 0x60000000",
        &[
            fetch(off, 0x3ffffffe),
            fetch(off, 0x40000000),
            fetch(off, 0x5ffffffe),
            fetch(off, 0x60000000),
        ],
    )?;
    told(
        rt,
        "default map, fetch of 0x9FFFFFFE, 0xA0000000, 0xFFFFFFFE; read of 0xFFFFFFFF",
        &[
            fetch(off, 0x9ffffffe),
            fetch(off, 0xa0000000),
            fetch(off, 0xfffffffe),
            read(off, 0xffffffff),
        ],
    )?;
    Ok(())
}

fn deciding(rt: &impl Print) -> Result<()> {
    let off = Mpu::fresh();
    let on = off.write(MpuRegister::Control, 1);
    told(
        rt,
        "no region, reads of 0xDFFFFFFF, 0xE0000000, 0xE00FFFFF, 0xE0100000",
        &[
            read(on, 0xdfffffff),
            read(on, 0xe0000000),
            read(on, 0xe00fffff),
            read(on, 0xe0100000),
        ],
    )?;
    let hfnmi = off.write(MpuRegister::Control, 3);
    let background = off.write(MpuRegister::Control, 5);
    told(
        rt,
        "no region, read at a negative priority with ED94 = 1, 3; ED94 = 5, privileged, not",
        &[
            verdict(on, Access::Read, 0, false, true),
            verdict(hfnmi, Access::Read, 0, false, true),
            verdict(background, Access::Read, 0, true, false),
            verdict(background, Access::Read, 0, false, false),
        ],
    )?;
    Ok(())
}

// The region number and its base.
fn selected(rt: &impl Print, label: &str, m: Mpu) -> Result<()> {
    told(
        rt,
        label,
        &[m.read(MpuRegister::Number), m.read(MpuRegister::Base)],
    )?;
    Ok(())
}

fn registers(rt: &impl Print) -> Result<()> {
    let third = Mpu::fresh().write(MpuRegister::Base, 0x20000013);
    selected(rt, "base 0x20000013", third)?;
    selected(
        rt,
        "base 0x4000001A after that",
        third.write(MpuRegister::Base, 0x4000001a),
    )?;
    selected(
        rt,
        "base 0xFFFFFFEF after that",
        third.write(MpuRegister::Base, 0xffffffef),
    )?;
    selected(
        rt,
        "region number 8 after that",
        third.write(MpuRegister::Number, 8),
    )?;
    selected(
        rt,
        "region number 7 after that",
        third.write(MpuRegister::Number, 7),
    )?;
    told(
        rt,
        "ED94 and attributes keep of all ones",
        &[
            third
                .write(MpuRegister::Control, 0xffffffff)
                .read(MpuRegister::Control),
            third
                .write(MpuRegister::Attributes, 0xffffffff)
                .read(MpuRegister::Attributes),
        ],
    )?;
    Ok(())
}

pub fn run(rt: &impl Print) -> Result<()> {
    matching(rt)?;
    rights(rt)?;
    default_map(rt)?;
    deciding(rt)?;
    registers(rt)?;
    Ok(())
}
