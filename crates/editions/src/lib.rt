// The verdict of either guard: the rules that both editions share, around what the regions of each allow. Those of PMSAv7 are in `verdicts`.
#![tactic(auto)]

ghost use Rattle.std.specs.Prelude.{◌≡◌};
ghost use Rattle.verdicts.specs.Numbers.{number_of};
ghost use Rattle.editions.specs.Editions.{guard_allows, guard_permits, guard_verdict};

use mpu::{Edition, Mpu};
use pmsav8::covers_allow;
use verdicts::regions::{
    background, default_allows, default_decides, fault_of, regions_allow, system_fetch,
};
use verdicts::{Request, Verdict};

mod pmsav8;

// What the regions allow, and the background where none decides.
#[tactic(auto, unfolding(crate::specs::Editions::guard_allows))]
fn guard_allows(edition: Edition, guard: Mpu, request: Request) -> bool
    ensures { result ≡ guard_allows edition guard request.access request.address request.privileged }
{
    let otherwise = background(guard.control, request);
    match edition {
        Edition::Pmsav7 => regions_allow(&guard.bases, &guard.attributes, request, otherwise),
        Edition::Pmsav8 => covers_allow(&guard.bases, &guard.attributes, request, otherwise),
    }
}

#[tactic(auto, unfolding(crate::specs::Editions::guard_permits))]
fn permits(edition: Edition, guard: Mpu, request: Request, negative: bool) -> bool
    ensures { result ≡ guard_permits edition guard request.access request.address request.privileged negative }
{
    if system_fetch(request.access, request.address) {
        return false;
    }
    if default_decides(guard.control, request.address, negative) {
        return default_allows(request.access, request.address);
    }
    guard_allows(edition, guard, request)
}

// `negative` is whether the execution priority is below 0.
#[tactic(auto, unfolding(crate::specs::Editions::guard_verdict))]
pub fn verdict(edition: Edition, guard: Mpu, request: Request, negative: bool) -> Verdict
    ensures { number_of result ≡ guard_verdict edition guard request.access request.address request.privileged negative }
{
    if permits(edition, guard, request, negative) {
        return Verdict::Allowed;
    }
    fault_of(request.access)
}
