// Verdicts of PMSAv8: which addresses a region covers, its rights, two regions and more, and where the default map decides.
use super::show::four;
use mpu::{Edition, Mpu, MpuRegister};
use std::io::Result;
use verdicts::{Access, Request};

fn with(m: Mpu, n: u32, rbar: u32, rlar: u32) -> Mpu {
    m.write(MpuRegister::Number, n)
        .write(MpuRegister::Rbar(0), rbar)
        .write(MpuRegister::Rlar(0), rlar)
}

// The guard is on, and has region 3.
fn one(rbar: u32, rlar: u32) -> Mpu {
    with(Mpu::fresh().write(MpuRegister::Control, 1), 3, rbar, rlar)
}

fn verdict(m: Mpu, access: Access, address: u32, privileged: bool, negative: bool) -> u32 {
    let request = Request {
        access,
        address,
        privileged,
    };
    u32::from(editions::verdict(Edition::Pmsav8, m, request, negative))
}

// Unprivileged, at a priority that is not negative.
fn read(m: Mpu, address: u32) -> u32 {
    verdict(m, Access::Read, address, false, false)
}

// Privileged, at a priority that is not negative.
fn privileged(m: Mpu, address: u32) -> u32 {
    verdict(m, Access::Read, address, true, false)
}

// Privileged, at a negative priority.
fn negative(m: Mpu, address: u32) -> u32 {
    verdict(m, Access::Read, address, true, true)
}

fn fetch(m: Mpu, address: u32) -> u32 {
    verdict(m, Access::Fetch, address, false, false)
}

fn covering(rt: &impl Print) -> Result<()> {
    let m = one(0x20000042, 0x20000061);
    four(
        rt,
        "blocks 0x20000040 to 0x20000060: reads of 0x2000003F, 40, 7F, 80",
        read(m, 0x2000003f),
        read(m, 0x20000040),
        read(m, 0x2000007f),
        read(m, 0x20000080),
    )?;
    let block = one(0x20000042, 0x20000041);
    four(
        rt,
        "block 0x20000040 alone: reads of 0x2000003F, 40, 5F, 60",
        read(block, 0x2000003f),
        read(block, 0x20000040),
        read(block, 0x2000005f),
        read(block, 0x20000060),
    )?;
    let backwards = one(0x20000042, 0x20000021);
    four(
        rt,
        "first 0x20000040, last 0x20000020: reads of 0x20000020, 3F, 40, 5F",
        read(backwards, 0x20000020),
        read(backwards, 0x2000003f),
        read(backwards, 0x20000040),
        read(backwards, 0x2000005f),
    )?;
    let whole = one(0x00000002, 0xffffffe1);
    four(
        rt,
        "blocks 0 to 0xFFFFFFE0: reads of 0, 0x7FFFFFFF, 0xFFFFFFFF; that with bit 0 of the last word clear",
        read(whole, 0),
        read(whole, 0x7fffffff),
        read(whole, 0xffffffff),
        read(one(0x00000002, 0xffffffe0), 0xffffffff),
    )?;
    let last = one(0xffffffe2, 0xffffffe1);
    four(
        rt,
        "block 0xFFFFFFE0 alone: reads of 0xFFFFFFDF, E0, FF, of 0",
        read(last, 0xffffffdf),
        read(last, 0xffffffe0),
        read(last, 0xffffffff),
        read(last, 0),
    )?;
    Ok(())
}

// Read and write: privileged, then the others.
fn row(rt: &impl Print, label: &str, rbar: u32) -> Result<()> {
    let m = one(rbar, 0x20000041);
    four(
        rt,
        label,
        privileged(m, 0x20000040),
        verdict(m, Access::Write, 0x20000040, true, false),
        read(m, 0x20000040),
        verdict(m, Access::Write, 0x20000040, false, false),
    )?;
    Ok(())
}

fn rights(rt: &impl Print) -> Result<()> {
    row(rt, "rights 0", 0x20000040)?;
    row(rt, "rights 1", 0x20000042)?;
    row(rt, "rights 2", 0x20000044)?;
    row(rt, "rights 3", 0x20000046)?;
    row(rt, "rights 2 with bits 4, 3 and 0", 0x2000005d)?;
    four(
        rt,
        "fetch by the others at rights 0, 1, 2, 3",
        fetch(one(0x20000040, 0x20000041), 0x20000040),
        fetch(one(0x20000042, 0x20000041), 0x20000040),
        fetch(one(0x20000044, 0x20000041), 0x20000040),
        fetch(one(0x20000046, 0x20000041), 0x20000040),
    )?;
    four(
        rt,
        "fetch at rights 1 and 3 with bit 0; of 0x40000000 and 0xA0000000 where a region has them",
        fetch(one(0x20000043, 0x20000041), 0x20000040),
        fetch(one(0x20000047, 0x20000041), 0x20000040),
        fetch(one(0x40000002, 0x40000001), 0x40000000),
        fetch(one(0xa0000002, 0xa0000001), 0xa0000000),
    )?;
    Ok(())
}

// Regions 1 and 6 share the block 0x20000060; all may read and write.
fn overlapping(control: u32) -> Mpu {
    let m = with(Mpu::fresh(), 1, 0x20000042, 0x20000061);
    with(m, 6, 0x20000062, 0x20000081).write(MpuRegister::Control, control)
}

fn twice(rt: &impl Print) -> Result<()> {
    let m = overlapping(1);
    four(
        rt,
        "two regions share 0x20000060: reads of 0x2000005F, 60, 7F, 80",
        read(m, 0x2000005f),
        read(m, 0x20000060),
        read(m, 0x2000007f),
        read(m, 0x20000080),
    )?;
    four(
        rt,
        "fetches of 0x2000005E, 60, 7E, 80",
        fetch(m, 0x2000005e),
        fetch(m, 0x20000060),
        fetch(m, 0x2000007e),
        fetch(m, 0x20000080),
    )?;
    let third = with(m, 0, 0x20000060, 0x20000061);
    let off = with(m, 6, 0x20000062, 0x20000080);
    four(
        rt,
        "read of 0x20000060, three regions there; one of the two not enabled; with the background, privileged and not",
        read(third, 0x20000060),
        read(off, 0x20000060),
        privileged(overlapping(5), 0x20000060),
        read(overlapping(5), 0x20000060),
    )?;
    Ok(())
}

fn deciding(rt: &impl Print) -> Result<()> {
    four(
        rt,
        "read of 0x20000060 with ED94 = 0, 2, 4, 6",
        read(overlapping(0), 0x20000060),
        read(overlapping(2), 0x20000060),
        read(overlapping(4), 0x20000060),
        read(overlapping(6), 0x20000060),
    )?;
    four(
        rt,
        "read of 0x20000060 at a negative priority with ED94 = 1, 3, 5, 7",
        negative(overlapping(1), 0x20000060),
        negative(overlapping(3), 0x20000060),
        negative(overlapping(5), 0x20000060),
        negative(overlapping(7), 0x20000060),
    )?;
    let bus = with(one(0xe0000000, 0xe01fffe1), 4, 0xe0000000, 0xe01fffe1);
    four(
        rt,
        "two regions over the private bus: reads of 0xE0000000, 0xE00FFFFF, 0xE0100000; fetch of 0xE0000000",
        read(bus, 0xe0000000),
        read(bus, 0xe00fffff),
        read(bus, 0xe0100000),
        fetch(bus, 0xe0000000),
    )?;
    four(
        rt,
        "no region there, read of 0x20000100 with ED94 = 1, 5, privileged, not",
        privileged(overlapping(1), 0x20000100),
        read(overlapping(1), 0x20000100),
        privileged(overlapping(5), 0x20000100),
        read(overlapping(5), 0x20000100),
    )?;
    Ok(())
}

pub fn run(rt: &impl Print) -> Result<()> {
    covering(rt)?;
    rights(rt)?;
    twice(rt)?;
    deciding(rt)?;
    Ok(())
}
