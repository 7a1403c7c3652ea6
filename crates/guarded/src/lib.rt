// Any event on any lent state, for every chip: one that does not fit is refused by 17, then a state that is not sound by 16.
#![tactic(auto)]

ghost use Rattle.std.specs.Prelude.{◌≡◌};
ghost use Rattle.rules.specs.Lent.{SameLoan, answer, view};
ghost use Rattle.rules.specs.Step.{step_of};
ghost use Rattle.guarded.specs.FewLines.{FewLines};

use refusals::Refusal;
use rules::{Chip, Lent, Outcome};
use script::Event;

pub fn step(chip: Chip, state: &mut Lent<'_>, event: Event) -> Outcome
    requires { FewLines chip }
    ensures answer { answer result (view state.new) ≡ step_of chip (view state.old) event }
    ensures loan { SameLoan state.old state.new }
{
    if !chip.fits() {
        return Err(Refusal::Setup);
    }
    let shown = state.shown();
    if !sound_state::is_sound(chip, shown) {
        return Err(Refusal::Unsound);
    }
    let limit = sound_state::execution(shown);
    step::act(chip, state, limit, event)
}
