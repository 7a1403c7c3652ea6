// How many places of a state's arrays are lent as a chip's lists: the chip's own, or all where something stands past those. What is past them is
// looked at in blocks of 64 places with no early end, which are compiled to look at many places at a time; the last block may overlap the one
// before it.
#![tactic(auto)]

ghost use Rattle.std.specs.Prelude.{ℕ, Bool, ◌≡◌, cond, ◌+◌, ◌-◌, ◌^◌, ◌<◌};
ghost use Rattle.places.specs.Places.{some_past, InBlocks, Blocks, AnswersBelow, reach_of};

use rules::Chip;

// Of the arrays at exception numbers, of the nest, and of the counts of lost rises.
#[derive(Clone, Copy)]
pub struct Reach {
    pub places: usize,
    pub nest: usize,
    pub lost: usize,
}

// The arrays of a state, whatever its chip.
#[derive(Clone, Copy)]
pub struct Arrays<'a> {
    pub pending: &'a [bool; 256],
    pub active: &'a [bool; 256],
    pub enabled: &'a [bool; 256],
    pub level: &'a [bool; 256],
    pub priority: &'a [u8; 256],
    pub nest: &'a [u8; 248],
    pub lost: &'a [u16; 240],
}

fn some_in_block<F: Fn(usize) -> bool>(stands: &F, from: usize) -> bool
    requires fits { from + 64 < 2 ^ 64 }
    requires callable { (i : ℕ) → i < from + 64 → F.pre stands.now i }
    ensures { (holds : ℕ → Bool) → AnswersBelow (F.post stands.now) holds (from + 64) → result ≡ some_past holds from 64 }
{
    let mut found = false;
    for k in 0..64 {
        found = stands(from + k) | found;
    }
    found
}

// Whether something stands at one of the places from n on.
fn some_past<F: Fn(usize) -> bool>(stands: F, n: usize, size: usize) -> bool
    requires blocks { InBlocks n size }
    requires callable { (i : ℕ) → i < size → F.pre stands i }
    ensures { (holds : ℕ → Bool) → AnswersBelow (F.post stands) holds size → result ≡ some_past holds n (size - n) }
{
    if n == size {
        return false;
    }
    let last = size - 64;
    let mut found = false;
    for from in (n..last).step_by(64) {
        found = some_in_block(&stands, from) | found;
    }
    some_in_block(&stands, last) | found
}

fn all_or(past: bool, size: usize, n: usize) -> usize
    ensures { result ≡ cond past size n }
{
    if past { size } else { n }
}

pub fn reach_of(chip: Chip, arrays: Arrays<'_>) -> Reach
    requires { Blocks chip }
    ensures { result ≡ reach_of chip arrays.entry.pending.now arrays.entry.active.now arrays.entry.enabled.now arrays.entry.level.now arrays.entry.priority.now arrays.entry.nest.now arrays.entry.lost.now }
{
    let Arrays {
        pending,
        active,
        enabled,
        level,
        priority,
        nest,
        lost,
    } = arrays;
    let flags = exceptions::flag_count(chip);
    let count = exceptions::exception_count(chip);
    let lines = chip.lines as usize;
    let occupied = |i: usize| (pending[i] | active[i])
        | (enabled[i] | level[i])
        | (priority[i] != 0);
    let places = some_past(occupied, flags, 256);
    let nested = some_past(|i| nest[i] != 0, count, 248);
    let counted = some_past(|i| lost[i] != 0, lines, 240);
    Reach {
        places: all_or(places, 256, flags),
        nest: all_or(nested, 248, count),
        lost: all_or(counted, 240, lines),
    }
}
