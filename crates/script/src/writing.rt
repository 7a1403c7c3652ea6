// One event written into a lent slice.
ghost use Rattle.std.specs.Prelude.{◌≡◌, ◌∷◌, ◌+◌, ◌≤◌, length};
ghost use Rattle.std.proofs.lemmas.List.Edits.{sets};
ghost use Rattle.script.specs.Answers.{written_answer};
ghost use Rattle.script.specs.Event.{kind_of, arguments_of};
ghost use Rattle.script.specs.Steps.{bytes_if, numbers_of};
ghost use Rattle.script.specs.Writing.{numbers_bytes, write_event, bytes_after};

use crate::Event;
use numbers::{size, write_groups};
use refusals::Refusal;

// The kind of an event and three arguments, 0 where its kind has fewer.
#[derive(Clone, Copy)]
struct Spelled(u32, u32, u32, u32);

#[tactic(auto, unfolding(crate::specs::Steps::numbers_of, crate::specs::Event::kind_of, crate::specs::Event::arguments_of, crate::specs::Event::arity))]
fn numbers_of(e: Event) -> Spelled
    ensures { numbers_of result ≡ kind_of e ∷ arguments_of e }
{
    match e {
        Event::Read(width, address) => Spelled(1, width, address, 0),
        Event::Write(width, address, value) => Spelled(2, width, address, value),
        Event::Line(line, level) => Spelled(3, line, level, 0),
        Event::Nmi => Spelled(4, 0, 0, 0),
        Event::Tick => Spelled(5, 0, 0, 0),
        Event::Fault(bit, address) => Spelled(6, bit, address, 0),
        Event::Svc => Spelled(7, 0, 0, 0),
        Event::Special(which, value) => Spelled(8, which, value, 0),
        Event::Entry => Spelled(9, 0, 0, 0),
        Event::Return(value) => Spelled(10, value, 0, 0),
        Event::Access(kind, width, address) => Spelled(11, u32::from(kind), width, address),
        Event::Lost(line) => Spelled(12, line, 0, 0),
        Event::Skip(count) => Spelled(13, count, 0, 0),
    }
}

// How many bytes a number takes, none if it is not there.
fn size_if(n: u32, there: bool) -> usize
    ensures { result ≡ length (bytes_if there n) }
{
    if there {
        return size(n, 5);
    }
    0
}

// How many bytes an event takes.
fn event_size(n: Spelled) -> usize
    ensures { result ≡ length (numbers_bytes (numbers_of n)) }
{
    let count = crate::arity(n.0);
    size_if(n.0, true) + size_if(n.1, 0 < count) + size_if(n.2, 1 < count) + size_if(n.3, 2 < count)
}

// Writes a number, if it is there, and answers the offset after it. Called where it fits.
fn put_if(out: &mut [u8], at: usize, n: u32, there: bool) -> usize
    requires { at + length (bytes_if there n) ≤ length out.old }
    ensures value { result ≡ at + length (bytes_if there n) }
    ensures out_after { out.new ≡ sets out.old at (bytes_if there n) }
{
    if there {
        write_groups(out, at, n, 5);
        return at + size(n, 5);
    }
    at
}

// Writes the numbers of an event. Called where they fit.
fn put_all(out: &mut [u8], at: usize, n: Spelled)
    requires { at + length (numbers_bytes (numbers_of n)) ≤ length out.old }
    ensures { out.new ≡ sets out.old at (numbers_bytes (numbers_of n)) }
{
    let count = crate::arity(n.0);
    let after_kind = put_if(out, at, n.0, true);
    let after_a = put_if(out, after_kind, n.1, 0 < count);
    let after_b = put_if(out, after_a, n.2, 1 < count);
    put_if(out, after_b, n.3, 2 < count);
}

// Writes an event from an offset on, and answers the offset after it.
pub fn write_event(out: &mut [u8], at: usize, e: Event) -> Result<usize, Refusal>
    ensures answer { result ≡ write_event out.old at e }
    ensures bytes { out.new ≡ bytes_after out.old at e }
    ensures numbers { written_answer result ≡ written_answer (write_event out.old at e) }
{
    if 65536 < at {
        return Err(Refusal::Length);
    }
    let n = numbers_of(e);
    let end = at + event_size(n);
    if 65536 < end {
        return Err(Refusal::Length);
    }
    if out.len() < end {
        return Err(Refusal::Length);
    }
    put_all(out, at, n);
    Ok(end)
}
