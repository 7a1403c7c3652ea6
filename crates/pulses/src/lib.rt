// The pulses that a line loses, on a lent state, for every chip: rises that find it pending (document 02, E1).
#![tactic(auto)]

ghost use Rattle.std.specs.Prelude.{◌≡◌, suc, min};
ghost use Rattle.rules.specs.Model.{with_lost};
ghost use Rattle.rules.specs.Lent.{SameLoan, answer, seen, view};
ghost use Rattle.rules.specs.Events.{loses_rise, one_more, counted, lost_call};

use nvic::flags::flag_at;
use nvic::lists::at_or;
use parts::accepted;
use refusals::Refusal;
use rules::{Chip, Lent, Outcome, Shown};

// Whether the line of exception n loses a rise by going to a level.
fn loses_rise(state: &Lent<'_>, n: usize, high: bool) -> bool
    ensures { result ≡ loses_rise n high (view state.now) }
{
    if high {
        if flag_at(state.pending, n) {
            return !flag_at(state.level, n);
        }
    }
    false
}

// A count holds where its type ends.
fn raised(n: u16) -> u16
    ensures { result ≡ min (suc n) 65535 }
{
    n.saturating_add(1)
}

fn one_more(lost: &mut [u16], line: usize)
    ensures { lost.new ≡ one_more line lost.old }
{
    if line < lost.len() {
        lost[line] = raised(lost[line]);
    }
}

// Before a line goes to a level: a rise that finds it pending counts.
pub fn count(state: &mut Lent<'_>, line: u32, high: bool)
    ensures counts { view state.new ≡ with_lost (counted line high (view state.old)) (view state.old) }
    ensures loan { SameLoan state.old state.new }
{
    if loses_rise(state, 16 + line as usize, high) {
        one_more(state.lost, line as usize);
    }
}

pub fn lost(chip: Chip, state: Shown<'_>, line: u32) -> Outcome
    ensures { answer result (seen state.entry) ≡ lost_call chip (seen state.entry) line }
{
    if chip.lines <= line {
        return Err(Refusal::OutOfRange);
    }
    Ok(accepted(at_or(state.lost, line as usize, 0) as u32))
}
