// Lines, NMI and SysTick on a lent state, for every chip.
#![tactic(auto)]

ghost use Rattle.std.specs.Prelude.{◌≡◌, not, ◌&&◌};
ghost use Rattle.flag_words.specs.Flags.{on};
ghost use Rattle.rules.specs.Lent.{SameLoan, answer, view};
ghost use Rattle.rules.specs.Events.{levelled, line_call, nmi_call};

use bools::both;
use nvic::flags::flag_at;
use nvic::lists::store;
use parts::accepted;
use refusals::Refusal;
use rules::{Chip, Lent, Outcome};

pub mod ticks;

// Whether the line of exception n rises by going to a level.
fn rises(state: &Lent<'_>, n: usize, high: bool) -> bool
    ensures { result ≡ (high && not (on state.now.level.now n)) }
{
    both(high, !flag_at(state.level, n))
}

// The line of exception n goes to a level. Only a rise makes it pending.
fn set_level(state: &mut Lent<'_>, n: usize, high: bool)
    ensures levels { view state.new ≡ levelled n high (view state.old) }
    ensures loan { SameLoan state.old state.new }
{
    if rises(state, n, high) {
        store(state.pending, n, true);
        store(state.level, n, true);
        return;
    }
    store(state.level, n, high);
}

pub fn line(chip: Chip, state: &mut Lent<'_>, line: u32, to: u32) -> Outcome
    ensures answer { answer result (view state.new) ≡ line_call chip (view state.old) line to }
    ensures loan { SameLoan state.old state.new }
{
    if chip.lines <= line {
        return Err(Refusal::OutOfRange);
    }
    if 1 < to {
        return Err(Refusal::OutOfRange);
    }
    let high = to == 1;
    pulses::count(state, line, high);
    set_level(state, 16 + line as usize, high);
    Ok(accepted(0))
}

pub fn nmi(state: &mut Lent<'_>) -> Outcome
    ensures answer { answer result (view state.new) ≡ nmi_call (view state.old) }
    ensures loan { SameLoan state.old state.new }
{
    store(state.pending, 2, true);
    Ok(accepted(0))
}
