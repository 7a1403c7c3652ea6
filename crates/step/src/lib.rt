// Any event on a lent state, for every chip. What an event leaves is sound again (`act_sound` of `demand3`), so a run of many events
// tests its state once.
#![tactic(auto)]

ghost use Rattle.std.specs.Prelude.{◌≡◌};
ghost use Rattle.rules.specs.Lent.{SameLoan, answer, view};
ghost use Rattle.rules.specs.Step.{act_of};
ghost use Rattle.step.specs.Ready.{Ready};

use rules::{Chip, Lent, Outcome};
use script::Event;

// `limit` is the execution priority.
pub fn act(chip: Chip, state: &mut Lent<'_>, limit: i32, event: Event) -> Outcome
    requires { Ready chip (view state.old) limit }
    ensures answer { answer result (view state.new) ≡ act_of chip (view state.old) event }
    ensures loan { SameLoan state.old state.new }
{
    match event {
        Event::Read(width, address) => reads::read(chip, state, width, address),
        Event::Write(width, address, value) => writes::write(chip, state, width, address, value),
        Event::Line(line, to) => lines::line(chip, state, line, to),
        Event::Nmi => lines::nmi(state),
        Event::Tick => lines::ticks::tick(state),
        Event::Fault(bit, address) => faults::fault(chip, state, limit, bit, address),
        Event::Svc => faults::svc(chip, state, limit),
        Event::Special(which, value) => special::special(chip, state, limit, which, value),
        Event::Entry => entry::entry(state, limit),
        Event::Return(value) => returning::return_(state, value),
        Event::Access(kind, width, address) => {
            let number = u32::from(kind);
            access::access_by(chip, state.core, limit, number, width, address)
        }
        Event::Lost(line) => pulses::lost(chip, state.shown(), line),
        Event::Skip(count) => lines::ticks::skip(state, count),
    }
}
