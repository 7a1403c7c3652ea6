// The special registers of a lent state, for every chip.
#![tactic(auto)]

ghost use Rattle.std.specs.Prelude.{◌≡◌, ◌<◌, [], ◌∷◌};
ghost use Rattle.std.specs.Result.{MatchResult};
ghost use Rattle.refusals.specs.declared.Refusal.TheVariants.{OutOfRange};
ghost use Rattle.rules.specs.Lent.{SameLoan, answer, view};
ghost use Rattle.rules.specs.Events.{lacks_special, special_at};
ghost use Rattle.rules.specs.Chip.{is_in};
ghost use Rattle.special.specs.Registers.{register_number};

use bools::both;
use parts::{accepted, is_privileged};
use refusals::Refusal;
use rules::{Chip, Lent, Outcome};

// The special registers, in the order of their numbers.
#[derive(Clone, Copy)]
enum SpecialRegister {
    Primask,
    Faultmask,
    Basepri,
    BasepriMax,
    Control,
}

impl TryFrom<u32> for SpecialRegister {
    type Error = Refusal;

    ghost try_from_gives = { λ which r. MatchResult r (λ register. register_number register ≡ which) (λ refusal. (refusal ≡ OutOfRange) × (4 < which)) };

    fn try_from(which: u32) -> Result<SpecialRegister, Refusal> {
        match which {
            0 => Ok(SpecialRegister::Primask),
            1 => Ok(SpecialRegister::Faultmask),
            2 => Ok(SpecialRegister::Basepri),
            3 => Ok(SpecialRegister::BasepriMax),
            4 => Ok(SpecialRegister::Control),
            _ => Err(Refusal::OutOfRange),
        }
    }
}

fn is_armv7m_only(register: SpecialRegister) -> bool
    ensures { result ≡ is_in (register_number register) (1 ∷ 2 ∷ 3 ∷ []) }
{
    match register {
        SpecialRegister::Primask => false,
        SpecialRegister::Faultmask => true,
        SpecialRegister::Basepri => true,
        SpecialRegister::BasepriMax => true,
        SpecialRegister::Control => false,
    }
}

fn lacks_special(chip: Chip, register: SpecialRegister) -> bool
    ensures { result ≡ lacks_special chip (register_number register) }
{
    both(chip.is_armv6m(), is_armv7m_only(register))
}

// `limit` is the execution priority.
pub fn special(chip: Chip, state: &mut Lent<'_>, limit: i32, which: u32, value: u32) -> Outcome
    ensures answer { answer result (view state.new) ≡ special_at limit chip (view state.old) which value }
    ensures loan { SameLoan state.old state.new }
{
    let register = SpecialRegister::try_from(which)?;
    if lacks_special(chip, register) {
        return Err(Refusal::OutOfRange);
    }
    let core = state.core;
    if is_privileged(core) {
        state.core.masks = masks::special_written(
            chip,
            core.masks,
            which,
            value,
            limit < 0,
            core.depth == 0,
        );
        return Ok(accepted(0));
    }
    Ok(accepted(0))
}
