// Flags: one read, and pending cleared by a word. Past the end a flag reads as clear.
ghost use Rattle.std.specs.Prelude.{◌≡◌};
ghost use Rattle.flag_words.specs.Flags.{on, clear_flags};
ghost use Rattle.rules.specs.Lent.{SameLoan, view};
ghost use Rattle.rules.specs.Model.{with_pending};
ghost use Rattle.rules.specs.Writes.{clearable};

use super::lists::at_or;
use rules::Lent;

pub fn flag_at(flags: &[bool], n: usize) -> bool
    ensures { result ≡ on flags.now n }
{
    at_or(flags, n, false)
}

// What a word clears: a line that is high and not active keeps its pending flag.
fn clearable(state: &Lent<'_>, n: usize, v: u32) -> u32
    ensures { result ≡ clearable state.now.level.now state.now.active.now n v }
{
    let high = flag_words::flags_word(state.level, n);
    let held = bits::clear_ones(high, flag_words::flags_word(state.active, n));
    bits::clear_ones(v, held)
}

pub fn clear_pending(state: &mut Lent<'_>, n: usize, v: u32)
    ensures clears { view state.new ≡ with_pending (clear_flags state.old.pending.now n (clearable state.old.level.now state.old.active.now n v)) (view state.old) }
    ensures loan { SameLoan state.old state.new }
{
    let cleared = clearable(state, n, v);
    flag_words::clear_flags(state.pending, n, cleared);
}
