// A script run into lines on any chip that a setup names, a piece at a time.
#![tactic(auto)]

ghost use Rattle.std.specs.Prelude.{◌≡◌, List, ℕ};
ghost use Rattle.rules.specs.Chip.{chip_of};
ghost use Rattle.text.specs.Text.{text_of};
ghost use Rattle.rules.specs.Lent.{model_of};
ghost use Rattle.guarded.specs.FewLines.{FewLines};
ghost use Rattle.pieces.specs.Pieces as pieces;
ghost use Rattle.any_run.specs.Progress.{started, rest_of, Usable, Ran};

use any_chip::State;
use pieces::Course;
use rules::{Chip, Lent, Setup};

// How far a script has run: the state after `events` events, the offset of the next, whether the script has ended, how many bytes of the
// buffer the last call wrote, and 17 or 16 where it was refused: the setup keeps no 3 to 8 bits of a priority byte; the state is not sound, or no
// script has so many events in so many bytes.
pub type Progress = pieces::Progress<State>;

// Before the first event of any script, whatever the setup: one that keeps no 3 to 8 bits is refused by `run_some`.
pub fn start(setup: Setup) -> Progress
    ensures value { result ≡ started setup }
    ensures usable { Usable result }
    ensures text { (script : List ℕ) → rest_of script result ≡ text_of (chip_of setup) script }
{
    Progress {
        state: State::fresh(setup),
        at: 0,
        events: 0,
        wrote: 0,
        ended: false,
        refusal: 0,
    }
}

// A run on lists. They are parameters, and one `Lent` only here: lent from arrays through a struct, what the places of an array hold after the call
// stays open in the proof of `run_some`.
fn run_on(
    chip: Chip,
    script: &[u8],
    pending: &mut [bool],
    active: &mut [bool],
    enabled: &mut [bool],
    level: &mut [bool],
    priority: &mut [u8],
    nest: &mut [u8],
    lost: &mut [u16],
    course: Course,
    out: &mut [u8],
) -> Course
    requires { FewLines chip }
    ensures { pieces.Ran chip script.now (model_of pending.old active.old enabled.old level.old priority.old nest.old lost.old course.core) course out.old (model_of pending.new active.new enabled.new level.new priority.new nest.new lost.new result.core) result out.new }
{
    let mut lent = Lent {
        pending,
        active,
        enabled,
        level,
        priority,
        nest,
        lost,
        core: course.core,
    };
    let r = running::run_some(chip, script, &mut lent, course, out);
    Course {
        core: lent.core,
        at: r.at,
        events: r.events,
        wrote: r.wrote,
        ended: r.ended,
        refusal: r.refusal,
    }
}

// Goes on with a script from where the last call left it, and writes as many lines as fit into `out`. With room for a line each call ends the
// script or moves on in it.
pub fn run_some(script: &[u8], progress: Progress, out: &mut [u8]) -> Progress
    ensures { Ran script.now progress out.old result out.new }
{
    let state = progress.state;
    let reach = state.reach();
    let State {
        setup,
        mut pending,
        mut active,
        mut enabled,
        mut level,
        mut priority,
        mut nest,
        mut lost,
        core,
    } = state;
    let course = Course {
        core,
        at: progress.at,
        events: progress.events,
        wrote: progress.wrote,
        ended: progress.ended,
        refusal: progress.refusal,
    };
    let r = run_on(
        setup.chip(),
        script,
        &mut pending[..reach.places],
        &mut active[..reach.places],
        &mut enabled[..reach.places],
        &mut level[..reach.places],
        &mut priority[..reach.places],
        &mut nest[..reach.nest],
        &mut lost[..reach.lost],
        course,
        out,
    );
    let state = State {
        setup,
        pending,
        active,
        enabled,
        level,
        priority,
        nest,
        lost,
        core: r.core,
    };
    Progress {
        state,
        at: r.at,
        events: r.events,
        wrote: r.wrote,
        ended: r.ended,
        refusal: r.refusal,
    }
}
