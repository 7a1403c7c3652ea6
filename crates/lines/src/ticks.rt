// SysTick: one tick, and many at once.
ghost use Rattle.std.specs.Prelude.{◌≡◌};
ghost use Rattle.bits.specs.Words.{bit};
ghost use Rattle.rules.specs.Model.{done};
ghost use Rattle.rules.specs.Lent.{SameLoan, answer, view};
ghost use Rattle.rules.specs.Events.{ticked_model, tick_call, skip_call};

use nvic::lists::store;
use parts::accepted;
use rules::{Lent, Outcome};
use systick::Ticked;

// The answer to ticks that the timer has made.
fn ticked(state: &mut Lent<'_>, ticks: Ticked) -> Outcome
    ensures answer { answer result (view state.new) ≡ done (bit ticks.fell) (ticked_model ticks (view state.old)) }
    ensures loan { SameLoan state.old state.new }
{
    state.core.timer = ticks.timer;
    if ticks.pends {
        store(state.pending, 15, true);
    }
    Ok(accepted(bits::bit_of(ticks.fell)))
}

pub fn tick(state: &mut Lent<'_>) -> Outcome
    ensures answer { answer result (view state.new) ≡ tick_call (view state.old) }
    ensures loan { SameLoan state.old state.new }
{
    let timer = state.core.timer;
    ticked(state, timer.tick())
}

pub fn skip(state: &mut Lent<'_>, count: u32) -> Outcome
    ensures answer { answer result (view state.new) ≡ skip_call (view state.old) count }
    ensures loan { SameLoan state.old state.new }
{
    let timer = state.core.timer;
    ticked(state, timer.skip(count))
}
