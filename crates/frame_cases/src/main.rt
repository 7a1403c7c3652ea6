// Document 01's frame cases and the edges of refusals 11 and 12, one line for each call: the refusal, then what is answered.
#![tactic(auto)]

use frame::Words;
use output::Tolerant;
use std::io::Result;

// Bytes 1 to 28 in the order of their addresses, then xPSR.
fn sample(xpsr: u32) -> Words {
    Words {
        r0: 0x04030201,
        r1: 0x08070605,
        r2: 0x0c0b0a09,
        r3: 0x100f0e0d,
        r12: 0x14131211,
        lr: 0x18171615,
        pc: 0x1c1b1a19,
        xpsr,
    }
}

fn stack(
    rt: &impl Print,
    base: u32,
    window: &mut [u8],
    sp: u32,
    align: bool,
    xpsr: u32,
) -> Result<()> {
    match frame::stack(base, window, sp, sample(xpsr), align) {
        Ok(frame) => println!(rt; "0 {frame}"),
        Err(refusal) => println!(rt; "{} 0", u32::from(refusal)),
    }
}

fn unstack(rt: &impl Print, base: u32, window: &[u8], sp: u32, align: bool) -> Result<()> {
    match frame::unstack(base, window, sp, align) {
        Ok(answer) => {
            let w = answer.words;
            println!(rt;
                "0 {} {} {} {} {} {} {} {} {}",
                answer.sp, w.r0, w.r1, w.r2, w.r3, w.r12, w.lr, w.pc, w.xpsr
            )
        }
        Err(refusal) => println!(rt; "{} 0 0 0 0 0 0 0 0 0", u32::from(refusal)),
    }
}

// The starred cases, unstacked again; without the flag; bit 9 as given is overwritten.
fn starred(rt: &impl Print, window: &mut [u8; 2048]) -> Result<()> {
    stack(rt, 0x20000000, window, 0x20000404, true, 0x01000000)?;
    unstack(rt, 0x20000000, window, 0x200003e0, true)?;
    unstack(rt, 0x20000000, window, 0x200003e0, false)?;
    stack(rt, 0x20000000, window, 0x20000400, true, 0x01000200)?;
    unstack(rt, 0x20000000, window, 0x200003e0, true)?;
    for i in [991, 992, 995, 1023, 1024] {
        println!(rt; "{}", window[i])?;
    }
    stack(rt, 0x20000000, window, 0x20000404, false, 0x01000200)?;
    unstack(rt, 0x20000000, window, 0x200003e4, false)?;
    Ok(())
}

// SP 0, 28, 32, 36; no multiple of 4.
fn near_zero(rt: &impl Print, window: &mut [u8]) -> Result<()> {
    stack(rt, 0, window, 0, true, 0)?;
    stack(rt, 0, window, 28, true, 0)?;
    stack(rt, 0, window, 32, true, 0)?;
    stack(rt, 0, window, 36, true, 0)?;
    stack(rt, 0, window, 36, false, 0)?;
    stack(rt, 0, window, 34, false, 0)?;
    unstack(rt, 0, window, 2, false)?;
    Ok(())
}

// Frames that reach over either end.
fn half_outside(rt: &impl Print, window: &mut [u8]) -> Result<()> {
    stack(rt, 16, window, 44, false, 0)?;
    stack(rt, 16, window, 48, false, 0)?;
    stack(rt, 16, window, 52, false, 0)?;
    stack(rt, 16, window, 52, true, 0)?;
    unstack(rt, 16, window, 12, false)?;
    unstack(rt, 16, window, 20, false)?;
    Ok(())
}

// 64 bytes whose end is at 2^32: the highest frames, and the restored SP at 2^32.
fn at_the_top(rt: &impl Print, window: &mut [u8]) -> Result<()> {
    stack(rt, 0xffffffc0, window, 0xfffffffc, false, 0)?;
    unstack(rt, 0xffffffc0, window, 0xffffffdc, false)?;
    unstack(rt, 0xffffffc0, window, 0xffffffe0, false)?;
    Ok(())
}

// A window over 65,536 bytes.
fn too_long(rt: &impl Print, window: &mut [u8]) -> Result<()> {
    stack(rt, 0, window, 32, false, 0)?;
    unstack(rt, 0, window, 0, false)?;
    Ok(())
}

// A base that is no multiple of 4: 12, also where 11 holds too.
fn off_base(rt: &impl Print, window: &mut [u8]) -> Result<()> {
    stack(rt, 2, window, 36, false, 0)?;
    stack(rt, 2, window, 1, false, 0)?;
    unstack(rt, 2, window, 1, false)?;
    Ok(())
}

fn main(rt: HostRuntime) -> Result<()> {
    let rt = Tolerant(rt);
    let mut ram = [0u8; 2048];
    starred(&rt, &mut ram)?;
    let mut low = [0u8; 64];
    near_zero(&rt, &mut low)?;
    let mut small = [0u8; 32];
    half_outside(&rt, &mut small)?;
    let mut high = [0u8; 64];
    at_the_top(&rt, &mut high)?;
    let mut long = [0u8; 65537];
    too_long(&rt, &mut long)?;
    let mut longest = [0u8; 65536];
    stack(&rt, 0, &mut longest, 65536, false, 0)?;
    let mut odd = [0u8; 35];
    stack(&rt, 0, &mut odd, 32, false, 0)?;
    let mut none = [0u8; 4];
    stack(&rt, 0, &mut none[..0], 32, false, 0)?;
    let mut off = [0u8; 64];
    off_base(&rt, &mut off)?;
    let mut past = [0u8; 65];
    stack(&rt, 0xffffffc0, &mut past, 0xfffffffc, false, 0)?;
    Ok(())
}
