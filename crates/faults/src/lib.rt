// Faults and SVC on a lent state, for every chip. `limit` is the execution priority.
#![tactic(auto)]

ghost use Rattle.std.specs.Prelude.{◌≡◌, not, ◌&&◌, ◌<◌, Some};
ghost use Rattle.rules.specs.Lent.{SameLoan, answer, view};
ghost use Rattle.std.specs.Int.Signed.{lt_z};
ghost use Rattle.rules.specs.Priorities.{enabled_at, group_number};
ghost use Rattle.rules.specs.Events.{raised, fault_raised, fault_at, svc_at};

use nvic::lists::store;
use parts::accepted;
use refusals::Refusal;
use rules::{Chip, Lent, Outcome, System};

// Whether HardFault takes what exception n may not.
fn escalates(state: &Lent<'_>, limit: i32, n: usize) -> bool
    ensures { result ≡ not (enabled_at (view state.now) n && lt_z (group_number (view state.now) n) limit) }
{
    if priority::is_enabled(state.enabled, n) {
        let group = state.core.group;
        if grouping::group_priority(state.priority, n, group) < limit {
            return false;
        }
    }
    true
}

// n is 4, 5, 6 or 11.
fn raised(chip: Chip, state: &mut Lent<'_>, limit: i32, n: usize, status: System) -> Outcome
    requires { n < 16 }
    ensures answer { answer result (view state.new) ≡ raised chip limit (view state.old) n status }
    ensures loan { SameLoan state.old state.new }
{
    let core = state.core;
    if escalates(state, limit, n) {
        let forced = system::status::forced(status);
        state.core.system = system::status::noted(chip, forced, core.system);
        store(state.pending, 3, true);
        return Ok(accepted(3));
    }
    state.core.system = system::status::noted(chip, status, core.system);
    store(state.pending, n, true);
    Ok(accepted(n as u32))
}

// The fault of a bit whose exception is n.
fn fault_at(
    chip: Chip,
    state: &mut Lent<'_>,
    limit: i32,
    n: usize,
    bit: u32,
    address: u32,
) -> Outcome
    requires { (n < 16) × (bit < 32) }
    ensures answer { answer result (view state.new) ≡ fault_raised chip limit (view state.old) (Some n) bit address }
    ensures loan { SameLoan state.old state.new }
{
    if limit < 0 {
        return Err(Refusal::Lockup);
    }
    let system = state.core.system;
    let status = system::status::fault_status(system, bit, address);
    raised(chip, state, limit, n, status)
}

pub fn fault(chip: Chip, state: &mut Lent<'_>, limit: i32, bit: u32, address: u32) -> Outcome
    ensures answer { answer result (view state.new) ≡ fault_at chip limit (view state.old) bit address }
    ensures loan { SameLoan state.old state.new }
{
    let found = system::status::fault_exception(bit);
    match found {
        Some(n) => fault_at(chip, state, limit, n, bit, address),
        None => Err(Refusal::FaultBit),
    }
}

pub fn svc(chip: Chip, state: &mut Lent<'_>, limit: i32) -> Outcome
    ensures answer { answer result (view state.new) ≡ svc_at chip limit (view state.old) }
    ensures loan { SameLoan state.old state.new }
{
    if limit < 0 {
        return Err(Refusal::Lockup);
    }
    let system = state.core.system;
    raised(chip, state, limit, 11, system)
}
