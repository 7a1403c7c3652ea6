// Access verdicts on the parts of a state that hold no list, for every chip.
#![tactic(auto)]

ghost use Rattle.std.specs.Prelude.{◌≡◌, cond, ltb, Ok, Err};
ghost use Rattle.refusals.specs.declared.Refusal.TheVariants.{OutOfRange};
ghost use Rattle.rules.specs.Model.{Model, with_core};
ghost use Rattle.rules.specs.Lent.{answer};
ghost use Rattle.rules.specs.Access.{purpose_of, fits_access, access_at, access_by};

use mpu::Edition;
use parts::{accepted, is_privileged};
use refusals::Refusal;
use rules::{Chip, Core, Outcome};
use verdicts::{Access, Request};

// What an access of this kind asks of the guard.
fn purpose_of(kind: u32) -> Result<Access, Refusal>
    ensures { result ≡ cond (ltb 2 kind) (Err OutOfRange) (Ok (purpose_of kind)) }
{
    match kind {
        0 => Ok(Access::Read),
        1 => Ok(Access::Write),
        2 => Ok(Access::Fetch),
        _ => Err(Refusal::OutOfRange),
    }
}

// Whether an access of this kind may have the width w.
fn fits_access(kind: u32, w: u32) -> bool
    ensures { result ≡ fits_access kind w }
{
    if kind == 2 {
        return w == 2;
    }
    map::checks::is_width(w)
}

// `edition` is that of the chip's guard, `limit` the execution priority.
fn access(edition: Edition, core: Core, limit: i32, kind: u32, width: u32, address: u32) -> Outcome
    ensures { (m : Model) → answer result (with_core core m) ≡ access_at edition limit (with_core core m) kind width address }
{
    let purpose = purpose_of(kind)?;
    if !fits_access(kind, width) {
        return Err(Refusal::Width);
    }
    if !map::checks::is_aligned(address, width) {
        return Err(Refusal::Unaligned);
    }
    let request = Request {
        access: purpose,
        address,
        privileged: is_privileged(core),
    };
    let verdict = editions::verdict(edition, core.guard, request, limit < 0);
    Ok(accepted(u32::from(verdict)))
}

// By the chip's guard; ARMv6-M has none. The kind is a number: an event may ask with any (`Other`), and one above 2 is refused after 19.
pub fn access_by(chip: Chip, core: Core, limit: i32, kind: u32, width: u32, address: u32) -> Outcome
    ensures { (m : Model) → answer result (with_core core m) ≡ access_by chip limit (with_core core m) kind width address }
{
    if chip.is_armv6m() {
        return Err(Refusal::NoGuard);
    }
    let edition = chip.guard;
    access(edition, core, limit, kind, width, address)
}
