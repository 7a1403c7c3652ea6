// The state by value of the chip with 55 lines, and the calls on it. Each call hands back its answer with the next state.
#![tactic(auto)]

ghost use Rattle.std.specs.Prelude.{◌≡◌};
ghost use Rattle.rules.specs.Chip.{chip55};
ghost use Rattle.rules.specs.Model.{fresh, stack, depth_of, top};
ghost use Rattle.rules.specs.Priorities.{execution};
ghost use Rattle.rules.specs.Sound.{is_sound};
ghost use Rattle.model.specs.View.{model, state};

use mpu::Edition;
use rules::{Chip, Core, Profile, Shown};

mod stepped;

// What a caller brings into scope to call a `State`.
pub use calls::Calls;

// Flags and priority bytes stand at exception numbers; the nest holds the active exceptions, the newest last; `lost` counts the rises that
// each line lost. `core` has the nest's depth and every part that holds no array of the chip's size.
#[derive(Clone, Copy, PartialEq, Eq, Debug)]
pub struct State {
    pub pending: [bool; 71],
    pub active: [bool; 71],
    pub enabled: [bool; 71],
    pub level: [bool; 71],
    pub priority: [u8; 71],
    pub nest: [u8; 63],
    pub lost: [u16; 55],
    pub core: Core,
}

// What a call answers: its answer, and the next state.
pub type Reply = calls::Reply<State>;

// `chip55` of the rules.
pub const CHIP: Chip = Chip {
    profile: Profile::Armv7m,
    guard: Edition::Pmsav7,
    lines: 55,
    bits: 3,
};

impl State {
    pub fn fresh() -> Self
        ensures { result ≡ state (fresh chip55) }
    {
        State {
            pending: [false; 71],
            active: [false; 71],
            enabled: [false; 71],
            level: [false; 71],
            priority: [0; 71],
            nest: [0; 63],
            lost: [0; 55],
            core: parts::fresh_core(CHIP),
        }
    }

    // The newest of the nest, 0 in thread mode.
    pub fn top(self) -> u32
        ensures { result ≡ top (stack (model self)) }
    {
        let nest = self.nest;
        let core = self.core;
        nvic::nest::top_of(&nest, core.depth)
    }

    // How many exceptions are nested.
    pub fn depth(self) -> usize
        ensures { result ≡ depth_of (model self) }
    {
        let core = self.core;
        core.depth
    }

    // For every state, sound or not, by a scan over all flags.
    pub fn execution_priority(self) -> i32
        ensures { result ≡ execution (model self) }
    {
        let active = self.active;
        let bytes = self.priority;
        let core = self.core;
        let masks = core.masks;
        priority::execution_priority(
            &active,
            &bytes,
            core.group,
            masks.basepri,
            masks.primask,
            masks.faultmask,
        )
    }

    // The test of refusal 16.
    pub fn is_sound(self) -> bool
        ensures { result ≡ is_sound chip55 (model self) }
    {
        let shown = Shown {
            pending: &self.pending,
            active: &self.active,
            enabled: &self.enabled,
            level: &self.level,
            priority: &self.priority,
            nest: &self.nest,
            lost: &self.lost,
            core: &self.core,
        };
        sound_state::is_sound(CHIP, shown)
    }
}
