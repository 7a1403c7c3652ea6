// A lent state whole, for every chip: the test of refusal 16, and the execution priority of a state that passes it.
#![tactic(auto)]

ghost use Rattle.std.specs.Prelude.{◌≡◌, ◌&&◌, ◌≤◌, length, ltb, eqb};
ghost use Rattle.grouping.specs.Grouping.{kept_byte};
ghost use Rattle.priority.specs.Priority.{execution_nested};
ghost use Rattle.systick.specs.Timer.{sound_timer};
ghost use Rattle.mpu.specs.Soundness.{sound_mpu};
ghost use Rattle.bools.specs.Every.{every};
ghost use Rattle.rules.specs.Lent.{seen};
ghost use Rattle.rules.specs.Sound.{is_sized, count_sound, sound_system, is_sound};

use rules::{Chip, Core, Shown};

mod bare;

// The lists have the chip's lengths.
#[tactic(auto, unfolding(rules::specs::Sound::is_sized))]
fn is_sized(chip: Chip, state: Shown<'_>) -> bool
    ensures { result ≡ is_sized chip (seen state.entry) }
{
    let flags = exceptions::flag_count(chip);
    let exceptions = exceptions::exception_count(chip);
    state.pending.len() == flags
        && state.active.len() == flags
        && state.enabled.len() == flags
        && state.level.len() == flags
        && state.priority.len() == flags
        && state.nest.len() == exceptions
        && state.lost.len() == chip.lines as usize
}

// The parts that hold no list.
fn is_core_sound(chip: Chip, core: Core) -> bool
    ensures { result ≡ (ltb core.group 8 && eqb (kept_byte chip.bits core.masks.basepri) core.masks.basepri && sound_timer core.timer && sound_mpu chip.guard core.guard && sound_system chip core.system) }
{
    let masks = core.masks;
    core.group < 8
        && grouping::kept_byte(bits::wide(masks.basepri), chip.bits) == masks.basepri
        && core.timer.is_sound()
        && core.guard.is_sound(chip.guard)
        && system::stored::sound_system(chip, core.system)
}

// No count is looked at: a `u16` is at most 65,535.
fn sound_counts(chip: Chip, lost: &[u16]) -> bool
    ensures { result ≡ every (count_sound lost.now) chip.lines }
{
    true
}

#[tactic(auto, using(crate::proofs::Laws::sized), unfolding(rules::specs::Sound::is_sound))]
pub fn is_sound(chip: Chip, state: Shown<'_>) -> bool
    ensures { result ≡ is_sound chip (seen state.entry) }
{
    is_sized(chip, state)
        && soundness::sound_flags(chip, state)
        && soundness::bytes_sound(chip, state.priority)
        && soundness::sound_nest(chip, state.active, state.nest, state.core.depth)
        && sound_counts(chip, state.lost)
        && is_core_sound(chip, *state.core)
        && bare::fits_profile(chip, *state.core)
}

// The execution priority of a sound state: its nest holds exactly the active exceptions (`execution_nest` of `demand3`) and is short,
// so there is no scan over all flags.
pub fn execution(state: Shown<'_>) -> i32
    requires { state.core.now.depth ≤ length state.nest.now }
    ensures { result ≡ execution_nested state.entry.core.now.group state.entry.priority.now state.entry.nest.now state.entry.core.now.depth state.entry.core.now.masks.basepri state.entry.core.now.masks.primask state.entry.core.now.masks.faultmask }
{
    let core = state.core;
    let masks = core.masks;
    priority::execution_nested(
        state.nest,
        core.depth,
        state.priority,
        core.group,
        masks.basepri,
        masks.primask,
        masks.faultmask,
    )
}
