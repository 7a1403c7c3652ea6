// A script run into lines on a lent state, a piece at a time, for every chip.
#![tactic(auto)]

ghost use Rattle.std.specs.Prelude.{◌≡◌};
ghost use Rattle.rules.specs.Lent.{SameLoan, view};
ghost use Rattle.guarded.specs.FewLines.{FewLines};
ghost use Rattle.pieces.specs.Pieces.{is_usable, Ran};
ghost use Rattle.pieces.specs.Steps.{Underway};

use pieces::{Course, LINE_ROOM, LONGEST};
use rules::{Chip, Lent};

#[tactic(auto, unfolding(pieces::specs::Pieces::is_usable))]
fn is_usable(chip: Chip, state: &Lent<'_>, p: Course) -> bool
    requires { FewLines chip }
    ensures { result ≡ is_usable chip (view state.now) p }
{
    sound_state::is_sound(chip, state.shown()) && p.events as usize <= p.at
}

// The state is not tested at each event: a sound state is sound after any event (`act_sound` of `demand3`).
fn run_events(
    chip: Chip,
    script: &[u8],
    state: &mut Lent<'_>,
    course: Course,
    out: &mut [u8],
) -> Course
    requires { FewLines chip × Underway chip script.now (view state.old) course }
    ensures ran { Ran chip script.now (view state.old) course out.old (view state.new) result out.new }
    ensures loan { SameLoan state.old state.new }
{
    let mut limit = sound_state::execution(state.shown());
    let mut at = course.at;
    let mut events = course.events;
    let mut wrote = 0;
    // A while: room for a line ends it, and no index.
    while LINE_ROOM <= out.len() - wrote {
        match script::read_event(script, at) {
            Err(refusal) => {
                let course = pieces::going(state.core, at, events, wrote);
                return pieces::close(script, course, refusal, out);
            }
            Ok((event, next)) => {
                let outcome = step::act(chip, state, limit, event);
                at = next;
                events += 1;
                let line = pieces::put_answer(state.shown(), outcome, events, out, wrote);
                limit = line.limit;
                wrote = line.end;
            }
        }
    }
    pieces::going(state.core, at, events, wrote)
}

// Goes on with a script from where the last call left it, on the state that it left, and writes as many lines as fit into `out`. With room for a
// line each call ends the script or moves on in it.
pub fn run_some(
    chip: Chip,
    script: &[u8],
    state: &mut Lent<'_>,
    mut course: Course,
    out: &mut [u8],
) -> Course
    requires { FewLines chip }
    ensures ran { Ran chip script.now (view state.old) course out.old (view state.new) result out.new }
    ensures loan { SameLoan state.old state.new }
{
    course.core = state.core;
    if course.ended {
        return pieces::unmoved(course);
    }
    if !chip.fits() {
        return pieces::unadmitted(course, out);
    }
    if LONGEST < script.len() {
        return pieces::run_long(course, out);
    }
    if is_usable(chip, state, course) {
        return run_events(chip, script, state, course, out);
    }
    pieces::refused(course)
}
