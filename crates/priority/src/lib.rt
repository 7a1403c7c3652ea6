// Execution priority and the best pending exception, over slices of any length: a state, which has them together, is `rules`' and above this crate.
#![tactic(auto)]

ghost use Rattle.std.specs.Prelude.{◌≡◌, true, ◌&&◌, ◌≤◌, length};
ghost use Rattle.std.specs.Int.Signed.{lt_z};
ghost use Rattle.grouping.specs.Grouping.{grouped, full_priority, group_priority};
ghost use Rattle.priority.specs.Priority.{under, masked, least_active, execution_priority, least_nested, execution_nested, always_enabled, is_enabled, better, best_pending};

use grouping::{full_priority, group_priority, grouped, signed};

fn under(on: bool, a: i32, b: i32) -> i32
    ensures { result ≡ under on a b }
{
    if on { b.min(a) } else { b }
}

#[tactic(auto, unfolding(crate::specs::Priority::least_active))]
fn least_active(active: &[bool], priority: &[u8], p: u32) -> i32
    ensures { result ≡ least_active p priority.now active.now (length active.now) }
{
    let mut least: i32 = 256;
    for (n, flag) in active.iter().enumerate() {
        if *flag {
            least = least.min(group_priority(priority, n, p));
        }
    }
    least
}

fn masked(least: i32, p: u32, basepri: u8, primask: bool, faultmask: bool) -> i32
    ensures { result ≡ masked p basepri primask faultmask least }
{
    let base = under(basepri != 0, grouped(signed(basepri), p), least);
    under(faultmask, -1, under(primask, 0, base))
}

#[tactic(auto, unfolding(crate::specs::Priority::execution_priority))]
pub fn execution_priority(
    active: &[bool],
    priority: &[u8],
    p: u32,
    basepri: u8,
    primask: bool,
    faultmask: bool,
) -> i32
    ensures { result ≡ execution_priority p priority.now active.now basepri primask faultmask }
{
    masked(
        least_active(active, priority, p),
        p,
        basepri,
        primask,
        faultmask,
    )
}

#[tactic(auto, unfolding(crate::specs::Priority::least_nested))]
fn least_nested(nest: &[u8], depth: usize, priority: &[u8], p: u32) -> i32
    requires { depth ≤ length nest.now }
    ensures { result ≡ least_nested p priority.now nest.now depth }
{
    let mut least: i32 = 256;
    for n in &nest[..depth] {
        least = least.min(group_priority(priority, usize::from(*n), p));
    }
    least
}

// The same from the nest, in as many steps as it has entries; both end in `masked`. A sound state's nest has room for its depth.
#[tactic(auto, unfolding(crate::specs::Priority::execution_nested))]
pub fn execution_nested(
    nest: &[u8],
    depth: usize,
    priority: &[u8],
    p: u32,
    basepri: u8,
    primask: bool,
    faultmask: bool,
) -> i32
    requires { depth ≤ length nest.now }
    ensures { result ≡ execution_nested p priority.now nest.now depth basepri primask faultmask }
{
    masked(
        least_nested(nest, depth, priority, p),
        p,
        basepri,
        primask,
        faultmask,
    )
}

fn always_enabled(n: usize) -> bool
    ensures { result ≡ always_enabled n }
{
    matches!(n, 2 | 3 | 11 | 14 | 15)
}

// The flags are those of 4, 5, 6 and the lines; past their end nothing is enabled.
pub fn is_enabled(enabled: &[bool], n: usize) -> bool
    ensures { result ≡ is_enabled enabled.now n }
{
    always_enabled(n) || enabled.get(n).copied().unwrap_or(false)
}

// Enabled, and of a group number below the limit.
fn is_able(enabled: &[bool], priority: &[u8], n: usize, p: u32, limit: i32) -> bool
    ensures { result ≡ (is_enabled enabled.now n && lt_z (group_priority p priority.now n) limit) }
{
    is_enabled(enabled, n) && group_priority(priority, n, p) < limit
}

// The earlier one stays, unless n has a lower full priority.
fn better(found: Option<usize>, priority: &[u8], n: usize) -> Option<usize>
    ensures { result ≡ better true (full_priority priority.now) n found }
{
    match found {
        Some(m) if full_priority(priority, m) <= full_priority(priority, n) => Some(m),
        _ => Some(n),
    }
}

// One step of the search. A number that is not pending costs one test.
fn consider(
    found: Option<usize>,
    pending: bool,
    enabled: &[bool],
    priority: &[u8],
    n: usize,
    p: u32,
    limit: i32,
) -> Option<usize>
    ensures { result ≡ better (pending && is_enabled enabled.now n && lt_z (group_priority p priority.now n) limit) (full_priority priority.now) n found }
{
    if pending && is_able(enabled, priority, n, p, limit) {
        return better(found, priority, n);
    }
    found
}

#[tactic(auto, unfolding(crate::specs::Priority::best, crate::specs::Priority::best_pending))]
pub fn best_pending(
    pending: &[bool],
    enabled: &[bool],
    priority: &[u8],
    p: u32,
    limit: i32,
) -> Option<usize>
    ensures { result ≡ best_pending p priority.now pending.now enabled.now limit }
{
    let mut found = None;
    for (n, flag) in pending.iter().enumerate() {
        found = consider(found, *flag, enabled, priority, n, p, limit);
    }
    found
}
