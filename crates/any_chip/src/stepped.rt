// The calls, by `step`. Each takes any state and any numbers: one whose setup keeps no 3 to 8 bits is refused by 17, then one that is not sound by 16, and handed back.
ghost use Rattle.std.specs.Prelude.{◌≡◌};
ghost use Rattle.rules.specs.Chip.{chip_of};
ghost use Rattle.guarded.specs.FewLines.{FewLines};
ghost use Rattle.rules.specs.Lent.{answer, model_of};
ghost use Rattle.rules.specs.Step.{step_of};
ghost use Rattle.any_chip.specs.View.{model, reply};

use super::{Reply, State};
use calls::Calls;
use places::Arrays;
use rules::{Chip, Core, Lent, Outcome};
use script::Event;

// One step on lists. They are parameters, and one `Lent` only here: lent from arrays through a struct, what the places of an array hold after
// the call stays open in the proof of `step`.
fn step_on(
    chip: Chip,
    pending: &mut [bool],
    active: &mut [bool],
    enabled: &mut [bool],
    level: &mut [bool],
    priority: &mut [u8],
    nest: &mut [u8],
    lost: &mut [u16],
    core: &mut Core,
    event: Event,
) -> Outcome
    requires { FewLines chip }
    ensures { answer result (model_of pending.new active.new enabled.new level.new priority.new nest.new lost.new core.new) ≡ step_of chip (model_of pending.old active.old enabled.old level.old priority.old nest.old lost.old core.old) event }
{
    let mut lent = Lent {
        pending,
        active,
        enabled,
        level,
        priority,
        nest,
        lost,
        core: *core,
    };
    let outcome = guarded::step(chip, &mut lent, event);
    *core = lent.core;
    outcome
}

impl Calls for State {
    ghost replied = { λ s event. reply s.setup (step_of (chip_of s.setup) (model s) event) };

    // The work is done on the chip's places of the arrays, lent to the code that every chip shares.
    fn step(self, event: Event) -> Reply {
        let State {
            setup,
            mut pending,
            mut active,
            mut enabled,
            mut level,
            mut priority,
            mut nest,
            mut lost,
            mut core,
        } = self;
        let arrays = Arrays {
            pending: &pending,
            active: &active,
            enabled: &enabled,
            level: &level,
            priority: &priority,
            nest: &nest,
            lost: &lost,
        };
        let reach = super::reach_on(setup, arrays);
        let outcome = step_on(
            setup.chip(),
            &mut pending[..reach.places],
            &mut active[..reach.places],
            &mut enabled[..reach.places],
            &mut level[..reach.places],
            &mut priority[..reach.places],
            &mut nest[..reach.nest],
            &mut lost[..reach.lost],
            &mut core,
            event,
        );
        let state = State {
            setup,
            pending,
            active,
            enabled,
            level,
            priority,
            nest,
            lost,
            core,
        };
        let outcome = parts::numbered(outcome);
        Reply {
            refusal: outcome.refusal,
            value: outcome.value,
            vector: outcome.vector,
            link: outcome.link,
            state,
        }
    }
}
