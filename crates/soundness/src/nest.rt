// The nested exceptions are distinct and exactly the active ones, and the places of the nest that are not in use hold 0.
ghost use Rattle.std.specs.Prelude.{◌≡◌, not, ◌&&◌, ◌||◌, ◌≤◌, ◌<◌, eqb, length, get_or};
ghost use Rattle.flag_words.specs.Flags.{on};
ghost use Rattle.rules.specs.Chip.{flag_count, exception_count, is_in};
ghost use Rattle.rules.specs.Model.{down};
ghost use Rattle.bools.specs.Tests.{implies};
ghost use Rattle.bools.specs.Every.{every};
ghost use Rattle.rules.specs.Sound.{nested_sound, all_on, all_distinct, unused_sound, sound_nest};

use bools::both;
use rules::Chip;

// A place that is not in use holds 0. Places below the depth are in use, and need no look.
fn unused_sound(nest: &[u8], depth: usize) -> bool
    ensures { result ≡ every (unused_sound nest.now depth) (length nest.now) }
{
    let mut ok = true;
    // No early end: a scan that always runs to its end is done many places at a time.
    for i in depth..nest.len() {
        ok = both(nest[i] == 0, ok);
    }
    ok
}

fn or_equal(found: bool, n: usize, entry: u8) -> bool
    ensures { result ≡ (eqb n entry || found) }
{
    n == entry as usize || found
}

// Whether n is among the `depth` oldest of the nest.
fn is_nested(nest: &[u8], depth: usize, n: usize) -> bool
    requires { depth ≤ length nest.now }
    ensures { result ≡ is_in n (down nest.now depth) }
{
    let mut found = false;
    for i in 0..depth {
        found = or_equal(found, n, nest[i]);
    }
    found
}

// The nest is searched only for an active exception.
fn active_fits(flag: bool, nest: &[u8], depth: usize, n: usize) -> bool
    requires { depth ≤ length nest.now }
    ensures { result ≡ implies flag (is_in n (down nest.now depth)) }
{
    !flag || is_nested(nest, depth, n)
}

// Each active exception is nested.
fn active_nested(active: &[bool], nest: &[u8], depth: usize) -> bool
    requires { depth ≤ length nest.now }
    ensures { result ≡ every (nested_sound active.now (down nest.now depth)) (length active.now) }
{
    for (n, flag) in active.iter().enumerate() {
        if !active_fits(*flag, nest, depth, n) {
            return false;
        }
    }
    true
}

fn and_active(ok: bool, active: &[bool], entry: u8) -> bool
    ensures { result ≡ (on active.now entry && ok) }
{
    let n = entry as usize;
    n < active.len() && active[n] && ok
}

// Each nested exception is active.
fn nested_active(active: &[bool], nest: &[u8], depth: usize) -> bool
    requires { depth ≤ length nest.now }
    ensures { result ≡ all_on active.now (down nest.now depth) }
{
    let mut ok = true;
    for i in 0..depth {
        ok = and_active(ok, active, nest[i]);
    }
    ok
}

// The i-th of the nest is none of those before it.
fn and_new(ok: bool, nest: &[u8], i: usize) -> bool
    requires { i < length nest.now }
    ensures { result ≡ (not (is_in (get_or nest.now i 0) (down nest.now i)) && ok) }
{
    !is_nested(nest, i, nest[i] as usize) && ok
}

fn are_distinct(nest: &[u8], depth: usize) -> bool
    requires { depth ≤ length nest.now }
    ensures { result ≡ all_distinct (down nest.now depth) }
{
    let mut ok = true;
    for i in 0..depth {
        ok = and_new(ok, nest, i);
    }
    ok
}

// Of a state these searches look at two lists and the depth, hence no `Shown`. The arrays of a state have the chip's lengths. A depth above the nest's fails first, so that no search reads past the end.
#[tactic(auto, unfolding(rules::specs::Sound::sound_nest))]
pub fn sound_nest(chip: Chip, active: &[bool], nest: &[u8], depth: usize) -> bool
    requires { (length active.now ≡ flag_count chip) × (length nest.now ≡ exception_count chip) }
    ensures { result ≡ sound_nest chip active.now nest.now depth }
{
    depth <= nest.len()
        && unused_sound(nest, depth)
        && active_nested(active, nest, depth)
        && nested_active(active, nest, depth)
        && are_distinct(nest, depth)
}
