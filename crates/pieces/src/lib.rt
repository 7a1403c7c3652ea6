// A script run into lines, a piece at a time: the course of a script, and the steps of a call that need no list of the state changed.
#![tactic(auto)]

ghost use Rattle.std.specs.Prelude.{◌≡◌, List, ℕ, ◌≤◌, ◌+◌, length};
ghost use Rattle.refusals.specs.Refusals.{number_of};
ghost use Rattle.decimal.specs.Decimal.{line_room};
ghost use Rattle.rules.specs.declared.Chip.{Chip};
ghost use Rattle.rules.specs.Lent.{seen};
ghost use Rattle.rules.specs.Model.{fresh};
ghost use Rattle.parts.specs.Numbers.{numbers};
ghost use Rattle.text.specs.Text.{text_of};
ghost use Rattle.pieces.specs.Pieces.{started, Usable, rest_of};
ghost use Rattle.pieces.specs.Steps.{unmoved, refused, going, finished, Unrun, Told, Stuck, Closed};

use refusals::Refusal;
use rules::{Chip, Core, Outcome, Shown};

// How far a script has run, beside the lists of the state: its other parts after `events` events, the offset of the next, whether the
// script has ended, how many bytes of the buffer the last call wrote, and 17 or 16 where it was refused: numbers, since `Ran` speaks of them.
#[derive(Clone, Copy)]
pub struct Course {
    pub core: Core,
    pub at: usize,
    pub events: u32,
    pub wrote: usize,
    pub ended: bool,
    pub refusal: u32,
}

// How far a script has run on a state by value: the state after `events` events, and the rest as in a course.
#[derive(Clone, Copy)]
pub struct Progress<S> {
    pub state: S,
    pub at: usize,
    pub events: u32,
    pub wrote: usize,
    pub ended: bool,
    pub refusal: u32,
}

// A line that is written: the execution priority that it prints, and where the next line starts.
#[derive(Clone, Copy)]
pub struct Line {
    pub limit: i32,
    pub end: usize,
}

// A script longer than this does not run.
pub const LONGEST: usize = 65536;

// The longest line of an event takes so many bytes, and the line of a broken script fewer.
pub const LINE_ROOM: usize = 56;

// Before the first event of any script.
pub fn start(chip: Chip) -> Course
    ensures value { result ≡ started chip }
    ensures usable { Usable chip (fresh chip) result }
    ensures text { (script : List ℕ) → rest_of chip script (fresh chip) result ≡ text_of chip script }
{
    Course {
        core: parts::fresh_core(chip),
        at: 0,
        events: 0,
        wrote: 0,
        ended: false,
        refusal: 0,
    }
}

pub fn unmoved(mut p: Course) -> Course
    ensures { result ≡ unmoved p }
{
    p.wrote = 0;
    p
}

// A course that no script can have: it ends here.
pub fn refused(mut p: Course) -> Course
    ensures { result ≡ refused p }
{
    p.wrote = 0;
    p.ended = true;
    p.refusal = u32::from(Refusal::Unsound);
    p
}

// The script goes on.
pub fn going(core: Core, at: usize, events: u32, wrote: usize) -> Course
    ensures { result ≡ going core at events wrote }
{
    Course {
        core,
        at,
        events,
        wrote,
        ended: false,
        refusal: 0,
    }
}

// The last line is written, or there is none.
pub fn finished(mut p: Course, wrote: usize) -> Course
    ensures { result ≡ finished p wrote }
{
    p.wrote = wrote;
    p.ended = true;
    p.refusal = 0;
    p
}

// Where no event can be read a script ends, or breaks. Called with room for the line.
pub fn close(script: &[u8], p: Course, refusal: Refusal, out: &mut [u8]) -> Course
    requires { Stuck script.now p refusal out.old }
    ensures { Closed script.now p out.old result out.new }
{
    if script.len() <= p.at {
        return finished(p, p.wrote);
    }
    let number = u32::from(refusal);
    finished(p, decimal::put_broken(out, p.wrote, number, p.at as u32))
}

// The line of an event, from its outcome and the state that it left. Called with room for the line.
pub fn put_answer(
    state: Shown<'_>,
    outcome: Outcome,
    number: u32,
    out: &mut [u8],
    at: usize,
) -> Line
    requires { (state.core.now.depth ≤ length state.nest.now) × (at + line_room ≤ length out.old) }
    ensures { Told (seen state.entry) (numbers outcome) number at out.old result.limit result.end out.new }
{
    let done = parts::numbered(outcome);
    let limit = sound_state::execution(state);
    let top = nvic::nest::top_of(state.nest, state.core.depth);
    let end = decimal::put_line(out, at, number, done.refusal, done.value, top, limit);
    Line { limit, end }
}

// No event runs: the line `script R at B` is written and ends the script, where it has room.
fn unrun(p: Course, refusal: Refusal, offset: u32, out: &mut [u8]) -> Course
    ensures { Unrun p 0 (number_of refusal) offset out.old result out.new }
{
    if out.len() < LINE_ROOM {
        let core = p.core;
        return going(core, p.at, p.events, 0);
    }
    finished(p, decimal::put_broken(out, 0, u32::from(refusal), offset))
}

// The chip does not fit.
pub fn unadmitted(p: Course, out: &mut [u8]) -> Course
    ensures { Unrun p 17 17 0 out.old result out.new }
{
    let mut r = unrun(p, Refusal::Setup, 0, out);
    r.refusal = u32::from(Refusal::Setup);
    r
}

// The script is too long.
pub fn run_long(p: Course, out: &mut [u8]) -> Course
    ensures { Unrun p 0 15 65536 out.old result out.new }
{
    unrun(p, Refusal::Length, 65536, out)
}
