// What ARMv6-M lacks is 0, and CFGCTRL its constant.
ghost use Rattle.std.specs.Prelude.{◌≡◌};
ghost use Rattle.bools.specs.Tests.{implies};
ghost use Rattle.rules.specs.Chip.{is_armv6m};
ghost use Rattle.rules.specs.Sound.{bare_masks, bare_system, is_bare};

use rules::{Chip, Core, Masks, System};

#[tactic(auto, unfolding(rules::specs::Sound::bare_masks))]
fn bare_masks(masks: Masks) -> bool
    ensures { result ≡ bare_masks masks }
{
    !masks.faultmask && masks.basepri == 0 && !masks.npriv
}

#[tactic(auto, unfolding(rules::specs::Sound::bare_system))]
fn bare_system(system: System) -> bool
    ensures { result ≡ bare_system system }
{
    system.vtable == 0
        && system.cfgctrl == 0x208
        && system.faultstat == 0
        && system.hfaultstat == 0
        && system.mmaddr == 0
        && system.faultaddr == 0
}

#[tactic(auto, unfolding(rules::specs::Sound::is_bare))]
fn is_bare(core: Core) -> bool
    ensures { result ≡ is_bare core }
{
    core.group == 0 && bare_masks(core.masks) && core.guard.is_unused() && bare_system(core.system)
}

// Where the profile asks for it.
pub fn fits_profile(chip: Chip, core: Core) -> bool
    ensures { result ≡ implies (is_armv6m chip) (is_bare core) }
{
    !chip.is_armv6m() || is_bare(core)
}
