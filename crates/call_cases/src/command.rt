// The commands. Every event is run by the call of its kind, and by `step` besides.
use super::parse::{letters, number};
use super::poke::{filled, poked};
use super::scripts::{scripted, too_long};
use super::show::{alike, answer, masks};
use calls::Calls;
use model::{Reply, State};
use script::{AccessKind, Event};
use std::io::Result;

// The state, and the one that `keep` put aside.
#[derive(Clone, Copy)]
pub struct Bench {
    pub state: State,
    pub kept: State,
}

// The words of a line: the command's name, and three numbers; the first of these may be a field's name.
#[derive(Clone, Copy)]
struct Command<'a> {
    name: &'a [u8],
    field: &'a [u8],
    a: u32,
    b: u32,
    c: u32,
}

fn parsed(line: &[u8]) -> Command<'_> {
    let mut words = line.split(|b| *b == b' ').filter(|word| !word.is_empty());
    let name = words.next().unwrap_or(&[]);
    let second = words.next().unwrap_or(&[]);
    Command {
        name: letters(name),
        field: letters(second),
        a: number(second),
        b: words.next().map_or(0, number),
        c: words.next().map_or(0, number),
    }
}

// What is none of the first twelve is an access.
fn event(k: Command<'_>) -> Event {
    match k.name {
        b"read" => Event::Read(k.a, k.b),
        b"writ" => Event::Write(k.a, k.b, k.c),
        b"line" => Event::Line(k.a, k.b),
        b"nmi" => Event::Nmi,
        b"tick" => Event::Tick,
        b"faul" => Event::Fault(k.a, k.b),
        b"svc" => Event::Svc,
        b"spec" => Event::Special(k.a, k.b),
        b"entr" => Event::Entry,
        b"retu" => Event::Return(k.a),
        b"lost" => Event::Lost(k.a),
        b"skip" => Event::Skip(k.a),
        _ => Event::Access(AccessKind::Other(k.a), k.b, k.c),
    }
}

// By the call of the event's kind.
fn called(s: State, event: Event) -> Reply {
    match event {
        Event::Read(width, address) => s.read(width, address),
        Event::Write(width, address, value) => s.write(width, address, value),
        Event::Line(line, level) => s.line(line, level),
        Event::Nmi => s.nmi(),
        Event::Tick => s.tick(),
        Event::Fault(bit, address) => s.fault(bit, address),
        Event::Svc => s.svc(),
        Event::Special(register, value) => s.special(register, value),
        Event::Entry => s.entry(),
        Event::Return(link) => s.return_(link),
        Event::Access(kind, width, address) => s.access(kind.into(), width, address),
        Event::Lost(line) => s.lost(line),
        Event::Skip(ticks) => s.skip(ticks),
    }
}

// A line that starts with a space prints nothing.
fn acted(rt: &impl Print, s: State, line: &[u8], event: Event) -> Result<State> {
    let r = called(s, event);
    if !line.starts_with(b" ") {
        answer(rt, line, s, r, s.step(event))?;
    }
    Ok(r.state)
}

fn next_state(rt: &impl Print, s: State, line: &[u8], k: Command<'_>) -> Result<State> {
    match k.name {
        b"fres" => Ok(State::fresh()),
        b"fill" => Ok(filled(s)),
        b"poke" => Ok(poked(s, k.field, k.b, k.c)),
        b"mask" => masks(rt, line, s),
        b"scri" => scripted(rt, line, s, k.a, k.b),
        b"long" => too_long(rt, line, s, k.a, k.b),
        _ => acted(rt, s, line, event(k)),
    }
}

impl Bench {
    // A line that starts with # is a comment; so is one with no word.
    pub fn obeyed(self, rt: &impl Print, line: &[u8]) -> Result<Bench> {
        let k = parsed(line);
        match k.name {
            b"" | b"#" => Ok(self),
            b"keep" => Ok(Bench {
                kept: self.state,
                ..self
            }),
            b"back" => Ok(Bench {
                state: self.kept,
                ..self
            }),
            b"kept" => {
                alike(rt, line, self.state, self.kept)?;
                Ok(self)
            }
            _ => Ok(Bench {
                state: next_state(rt, self.state, line, k)?,
                ..self
            }),
        }
    }
}
