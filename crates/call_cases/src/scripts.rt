// A script run a piece at a time on the state, with room for one line.
use super::show::ran;
use model::State;
use run::Progress;
use std::io::Result;

fn reached(s: State, at: u32, events: u32) -> Progress {
    Progress {
        state: s,
        at: at as usize,
        events,
        wrote: 0,
        ended: false,
        refusal: 0,
    }
}

// NMI, a tick, NMI, and a kind that is unknown.
pub fn scripted(rt: &impl Print, line: &[u8], s: State, at: u32, events: u32) -> Result<State> {
    let mut out = [0u8; 60];
    let r = run::run_some(b"\x04\x05\x04\x0e", reached(s, at, events), &mut out);
    ran(rt, line, s, r, &out)
}

// More ticks than a script may have bytes.
pub fn too_long(rt: &impl Print, line: &[u8], s: State, at: u32, events: u32) -> Result<State> {
    let script = [5u8; 65537];
    let mut out = [0u8; 60];
    let r = run::run_some(&script, reached(s, at, events), &mut out);
    ran(rt, line, s, r, &out)
}
