// The state by value of every chip that a setup names, and the calls on it. Each call hands back its answer with the next state.
#![tactic(auto)]

ghost use Rattle.std.specs.Prelude.{◌≡◌, ◌≤◌, ◌&&◌};
ghost use Rattle.rules.specs.Chip.{chip_of, fits};
ghost use Rattle.rules.specs.Model.{fresh, stack, depth_of, top};
ghost use Rattle.rules.specs.Priorities.{execution};
ghost use Rattle.rules.specs.Sound.{is_sound};
ghost use Rattle.places.specs.Places.{reach_of};
ghost use Rattle.any_chip.specs.View.{reach_in, model, state};

use places::{Arrays, Reach};
use rules::{Core, Setup, Shown};

mod stepped;

// What a caller brings into scope to call a `State`.
pub use calls::Calls;

// Beside the `State` of `model`, which has neither setup nor reach and is compiled for its lengths. Flags and priority bytes stand at exception numbers; the nest holds the active exceptions, the newest last; `lost` counts the rises
// that each line lost. A chip has the first places of each array, and the others are clear. `core` has the nest's depth and every part that holds no array of the chip's size.
#[derive(Clone, Copy, PartialEq, Eq, Debug)]
pub struct State {
    pub setup: Setup,
    pub pending: [bool; 256],
    pub active: [bool; 256],
    pub enabled: [bool; 256],
    pub level: [bool; 256],
    pub priority: [u8; 256],
    pub nest: [u8; 248],
    pub lost: [u16; 240],
    pub core: Core,
}

// What a call answers: its answer, and the next state.
pub type Reply = calls::Reply<State>;

// A setup's chip has no more places than the arrays.
fn reach_on(setup: Setup, arrays: Arrays<'_>) -> Reach
    ensures value { result ≡ reach_of (chip_of setup) arrays.entry.pending.now arrays.entry.active.now arrays.entry.enabled.now arrays.entry.level.now arrays.entry.priority.now arrays.entry.nest.now arrays.entry.lost.now }
    ensures within { (result.places ≤ 256) × (result.nest ≤ 248) × (result.lost ≤ 240) }
{
    places::reach_of(setup.chip(), arrays)
}

impl State {
    pub fn fresh(setup: Setup) -> Self
        ensures { result ≡ state setup (fresh (chip_of setup)) }
    {
        State {
            setup,
            pending: [false; 256],
            active: [false; 256],
            enabled: [false; 256],
            level: [false; 256],
            priority: [0; 256],
            nest: [0; 248],
            lost: [0; 240],
            core: parts::fresh_core(setup.chip()),
        }
    }

    // How many places of its arrays are lent to the code that every chip shares: where something stands past the chip's own, all of them, which
    // that code refuses by their number.
    pub fn reach(self) -> Reach
        ensures value { result ≡ reach_in self }
        ensures within { (result.places ≤ 256) × (result.nest ≤ 248) × (result.lost ≤ 240) }
    {
        self.reached()
    }

    // The same of a state that stays where it is.
    fn reached(&self) -> Reach
        ensures value { result ≡ reach_in self.now }
        ensures within { (result.places ≤ 256) × (result.nest ≤ 248) × (result.lost ≤ 240) }
    {
        let arrays = Arrays {
            pending: &self.pending,
            active: &self.active,
            enabled: &self.enabled,
            level: &self.level,
            priority: &self.priority,
            nest: &self.nest,
            lost: &self.lost,
        };
        reach_on(self.setup, arrays)
    }

    // The newest of the nest, 0 in thread mode.
    pub fn top(self) -> u32
        ensures { result ≡ top (stack (model self)) }
    {
        let reach = self.reached();
        let nest = self.nest;
        let core = self.core;
        nvic::nest::top_of(&nest[..reach.nest], core.depth)
    }

    // How many exceptions are nested.
    pub fn depth(self) -> usize
        ensures { result ≡ depth_of (model self) }
    {
        let core = self.core;
        core.depth
    }

    // For every state, sound or not and whatever its setup, by a scan over all flags.
    pub fn execution_priority(self) -> i32
        ensures { result ≡ execution (model self) }
    {
        let reach = self.reached();
        let active = self.active;
        let bytes = self.priority;
        let core = self.core;
        let masks = core.masks;
        priority::execution_priority(
            &active[..reach.places],
            &bytes[..reach.places],
            core.group,
            masks.basepri,
            masks.primask,
            masks.faultmask,
        )
    }

    // The tests of refusals 17 and 16.
    pub fn is_sound(self) -> bool
        ensures { result ≡ (fits (chip_of self.setup) && is_sound (chip_of self.setup) (model self)) }
    {
        let chip = self.setup.chip();
        if !chip.fits() {
            return false;
        }
        let reach = self.reached();
        let shown = Shown {
            pending: &self.pending[..reach.places],
            active: &self.active[..reach.places],
            enabled: &self.enabled[..reach.places],
            level: &self.level[..reach.places],
            priority: &self.priority[..reach.places],
            nest: &self.nest[..reach.nest],
            lost: &self.lost[..reach.lost],
            core: &self.core,
        };
        sound_state::is_sound(chip, shown)
    }
}
