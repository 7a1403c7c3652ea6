// Exception return on a lent state, for every chip.
#![tactic(auto)]

ghost use Rattle.std.specs.Prelude.{◌≡◌, true, cond, ◌<◌, set};
ghost use Rattle.rules.specs.Lent.{SameLoan, answer, view};
ghost use Rattle.flag_words.specs.Flags.{on};
ghost use Rattle.rules.specs.Model.{down, top};
ghost use Rattle.rules.specs.Nesting.{returned, return_call};

use nvic::flags::flag_at;
use nvic::lists::store;
use parts::accepted;
use refusals::Refusal;
use rules::{Lent, Outcome};

// The newest of the nest when so many are nested.
fn newest(state: &Lent<'_>, depth: usize) -> u32
    ensures { result ≡ top (down state.now.nest.now depth) }
{
    nvic::nest::top_of(state.nest, depth)
}

fn is_high(state: &Lent<'_>, n: usize) -> bool
    ensures { result ≡ on state.now.level.now n }
{
    flag_at(state.level, n)
}

// A line that is high is pending again.
fn repend(pending: &mut [bool], n: usize, high: bool)
    ensures { pending.new ≡ cond high (set pending.old n true) pending.old }
{
    if high {
        store(pending, n, true);
    }
}

// Removes the top of a nest that is not empty.
fn leave(state: &mut Lent<'_>, value: u32)
    requires { 0 < state.old.core.depth }
    ensures left { view state.new ≡ returned value (view state.old) }
    ensures loan { SameLoan state.old state.new }
{
    let core = state.core;
    let depth = core.depth - 1;
    let top = newest(state, core.depth) as usize;
    let high = is_high(state, top);
    repend(state.pending, top, high);
    store(state.active, top, false);
    store(state.nest, depth, 0);
    state.core.depth = depth;
    state.core.masks = masks::returned_masks(core.masks, top, value);
}

pub fn return_(state: &mut Lent<'_>, value: u32) -> Outcome
    ensures answer { answer result (view state.new) ≡ return_call (view state.old) value }
    ensures loan { SameLoan state.old state.new }
{
    let depth = state.core.depth;
    if nvic::nest::link_fits(depth, value) {
        let next = newest(state, depth - 1);
        leave(state, value);
        return Ok(accepted(next));
    }
    Err(Refusal::ReturnValue)
}
