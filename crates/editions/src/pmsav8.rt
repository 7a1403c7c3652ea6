// What the regions of PMSAv8, ARMv8-M's guard, allow.
ghost use Rattle.std.specs.Prelude.{◌≡◌};
ghost use Rattle.editions.specs.Pmsav8.{covers, rights_in, cover_allows, covers_allow};

use verdicts::{Access, Request};

#[tactic(auto, unfolding(crate::specs::Pmsav8::covers))]
fn covers(rbar: u32, rlar: u32, address: u32) -> bool
    ensures { result ≡ covers rbar rlar address }
{
    let block = address / 32;
    rlar % 2 == 1 && rbar / 32 <= block && block <= rlar / 32
}

// Bit 1 lets all in.
#[tactic(auto, unfolding(crate::specs::Pmsav8::rights_in))]
fn may_read(rbar: u32, privileged: bool) -> bool
    ensures { result ≡ (rights_in rbar privileged).read }
{
    privileged || rbar / 2 % 2 == 1
}

// Bit 2 makes a region read only.
#[tactic(auto, unfolding(crate::specs::Pmsav8::rights_in))]
fn may_write(rbar: u32, privileged: bool) -> bool
    ensures { result ≡ (rights_in rbar privileged).write }
{
    if rbar / 4 % 2 == 1 {
        return false;
    }
    may_read(rbar, privileged)
}

#[tactic(auto, unfolding(crate::specs::Pmsav8::cover_allows))]
fn cover_allows(rbar: u32, access: Access, privileged: bool) -> bool
    ensures { result ≡ cover_allows rbar access privileged }
{
    match access {
        Access::Read => may_read(rbar, privileged),
        Access::Write => may_write(rbar, privileged),
        Access::Fetch => rbar % 2 != 1 && may_read(rbar, privileged),
    }
}

// A second region over the address decides at once: it faults.
pub fn covers_allow(rbars: &[u32; 8], rlars: &[u32; 8], request: Request, otherwise: bool) -> bool
    ensures { result ≡ covers_allow rbars.now rlars.now request.access request.address request.privileged otherwise 8 }
{
    let mut found = None;
    for (rbar, rlar) in rbars.iter().zip(rlars) {
        if covers(*rbar, *rlar, request.address) {
            if found.is_some() {
                return false;
            }
            found = Some(*rbar);
        }
    }
    match found {
        Some(rbar) => cover_allows(rbar, request.access, request.privileged),
        None => otherwise,
    }
}
