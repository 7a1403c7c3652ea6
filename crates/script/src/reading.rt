// One event read from a script.
ghost use Rattle.std.specs.Prelude.{◌≡◌};
ghost use Rattle.script.specs.Answers.{read_answer};
ghost use Rattle.script.specs.Event.{arity};
ghost use Rattle.script.specs.Reading.{numbers_at, event_of, with_arguments, read_event};
ghost use Rattle.script.specs.Steps.{number_if};

use crate::{AccessKind, Event};
use numbers::read_number;
use refusals::Refusal;

#[tactic(auto, unfolding(crate::specs::Reading::event_of))]
fn event_of(kind: u32, a: u32, b: u32, c: u32, next: usize) -> Result<(Event, usize), Refusal>
    ensures { result ≡ event_of kind a b c next }
{
    match kind {
        1 => Ok((Event::Read(a, b), next)),
        2 => Ok((Event::Write(a, b, c), next)),
        3 => Ok((Event::Line(a, b), next)),
        4 => Ok((Event::Nmi, next)),
        5 => Ok((Event::Tick, next)),
        6 => Ok((Event::Fault(a, b), next)),
        7 => Ok((Event::Svc, next)),
        8 => Ok((Event::Special(a, b), next)),
        9 => Ok((Event::Entry, next)),
        10 => Ok((Event::Return(a), next)),
        11 => Ok((Event::Access(AccessKind::from(a), b, c), next)),
        12 => Ok((Event::Lost(a), next)),
        13 => Ok((Event::Skip(a), next)),
        _ => Err(Refusal::Kind),
    }
}

// The number at an offset, or 0 and no byte read if it is not there.
#[tactic(auto, unfolding(crate::specs::Steps::number_if))]
fn read_if(script: &[u8], at: usize, there: bool) -> Option<(u32, usize)>
    ensures { result ≡ number_if script.now at there }
{
    if there {
        return read_number(script, at);
    }
    Some((0, at))
}

fn read_arguments(script: &[u8], at: usize, kind: u32) -> Result<(Event, usize), Refusal>
    ensures { result ≡ with_arguments kind (numbers_at script.now at (arity kind)) }
{
    let count = crate::arity(kind);
    let (a, after_a) = read_if(script, at, 0 < count).ok_or(Refusal::Number)?;
    let (b, after_b) = read_if(script, after_a, 1 < count).ok_or(Refusal::Number)?;
    let (c, after_c) = read_if(script, after_b, 2 < count).ok_or(Refusal::Number)?;
    event_of(kind, a, b, c, after_c)
}

// The event that starts at an offset of a script, and the offset after it.
pub fn read_event(script: &[u8], at: usize) -> Result<(Event, usize), Refusal>
    ensures value { result ≡ read_event script.now at }
    ensures numbers { read_answer result ≡ read_answer (read_event script.now at) }
{
    if 65536 < script.len() {
        return Err(Refusal::Length);
    }
    let (kind, next) = read_number(script, at).ok_or(Refusal::Number)?;
    read_arguments(script, next, kind)
}
