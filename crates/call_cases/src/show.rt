// What a command prints: its line, a colon, the answer.
use model::{Reply, State};
use run::Progress;
use std::io::{Result, Write};

// The line, whatever its bytes.
fn begin(rt: &impl Print, line: &[u8]) -> Result<()> {
    std::io::writer(rt).write_all(line)
}

// The refusal, the value, the vector address, the link value; `same` if the state is the one before.
pub fn answer(rt: &impl Print, line: &[u8], before: State, r: Reply, stepped: Reply) -> Result<()> {
    begin(rt, line)?;
    print!(rt;
        ": {} {} {:#010x} {:#010x}",
        r.refusal, r.value, r.vector, r.link
    )?;
    if before == r.state {
        print!(rt; " same")?;
    }
    if r == stepped {
        println!(rt; "")
    } else {
        println!(rt; ", but not by step")
    }
}

// Whether two states are the same.
pub fn alike(rt: &impl Print, line: &[u8], a: State, b: State) -> Result<()> {
    begin(rt, line)?;
    if a == b {
        println!(rt; ": same")
    } else {
        println!(rt; ": not the same")
    }
}

// PRIMASK, FAULTMASK, BASEPRI, CONTROL bit 0, CONTROL bit 1.
pub fn masks(rt: &impl Print, line: &[u8], s: State) -> Result<State> {
    let m = s.core.masks;
    let (primask, faultmask) = (u32::from(m.primask), u32::from(m.faultmask));
    let (npriv, spsel) = (u32::from(m.npriv), u32::from(m.spsel));
    begin(rt, line)?;
    println!(rt; ": {primask} {faultmask} {} {npriv} {spsel}", m.basepri)?;
    Ok(s)
}

// The refusal, the offset, the number of events, the bytes written, 1 if the script has ended; `same` if the state is the one before. Then the
// text written.
pub fn ran(rt: &impl Print, line: &[u8], before: State, r: Progress, out: &[u8]) -> Result<State> {
    let ended = u32::from(r.ended);
    let same = if before == r.state { " same" } else { "" };
    begin(rt, line)?;
    println!(rt;
        ": {} {} {} {} {ended}{same}",
        r.refusal, r.at, r.events, r.wrote
    )?;
    std::io::writer(rt).write_all(out.get(..r.wrote).unwrap_or(&[]))?;
    Ok(r.state)
}
