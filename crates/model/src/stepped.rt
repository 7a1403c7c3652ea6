// The calls, by `step`. Each takes any state and any numbers: a state that is not sound is refused by 16, and handed back.
ghost use Rattle.std.specs.Prelude.{◌≡◌};
ghost use Rattle.rules.specs.Chip.{chip55};
ghost use Rattle.rules.specs.Step.{step_of};
ghost use Rattle.model.specs.View.{model, reply};

use super::{Reply, State};
use calls::Calls;
use rules::Lent;
use script::Event;

impl Calls for State {
    ghost replied = { λ s event. reply (step_of chip55 (model s) event) };

    // The work is done on the state's arrays, lent to the code that every chip shares.
    fn step(mut self, event: Event) -> Reply {
        let mut lent = Lent {
            pending: &mut self.pending,
            active: &mut self.active,
            enabled: &mut self.enabled,
            level: &mut self.level,
            priority: &mut self.priority,
            nest: &mut self.nest,
            lost: &mut self.lost,
            core: self.core,
        };
        let outcome = parts::numbered(guarded::step(super::CHIP, &mut lent, event));
        self.core = lent.core;
        Reply {
            refusal: outcome.refusal,
            value: outcome.value,
            vector: outcome.vector,
            link: outcome.link,
            state: self,
        }
    }
}
