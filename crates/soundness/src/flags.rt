// Flags stand only where they may.
ghost use Rattle.std.specs.Prelude.{◌≡◌, length};
ghost use Rattle.rules.specs.Chip.{flag_count, stands};
ghost use Rattle.bools.specs.Tests.{implies};
ghost use Rattle.bools.specs.Every.{every};
ghost use Rattle.rules.specs.Sound.{flag_sound, sound_flags};

use exceptions::stands;
use rules::{Chip, Place, Shown};

// A flag that is not set costs one test.
fn flag_fits(flag: bool, chip: Chip, place: Place, n: usize) -> bool
    ensures { result ≡ implies flag (stands chip place n) }
{
    !flag || stands(chip, place, n)
}

// Only numbers below 16 are tried: the others that a chip holds flags for are lines, where a flag of any kind may stand.
fn flags_sound(chip: Chip, place: Place, flags: &[bool]) -> bool
    requires { length flags.now ≡ flag_count chip }
    ensures { result ≡ every (flag_sound chip place flags.now) (flag_count chip) }
{
    for n in 0..16 {
        if !flag_fits(flags[n], chip, place, n) {
            return false;
        }
    }
    true
}

// The lists of a state have the chip's lengths.
#[tactic(auto, unfolding(rules::specs::Sound::sound_flags))]
pub fn sound_flags(chip: Chip, state: Shown<'_>) -> bool
    requires { (length state.pending.now ≡ flag_count chip) × (length state.active.now ≡ flag_count chip) × (length state.enabled.now ≡ flag_count chip) × (length state.level.now ≡ flag_count chip) }
    ensures { result ≡ sound_flags chip state.entry.pending.now state.entry.active.now state.entry.enabled.now state.entry.level.now }
{
    flags_sound(chip, Place::Exception, state.pending)
        && flags_sound(chip, Place::Exception, state.active)
        && flags_sound(chip, Place::Enable, state.enabled)
        && flags_sound(chip, Place::Line, state.level)
}
