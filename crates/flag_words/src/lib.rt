// Flags of a slice, 32 at a time as a word: read, set, cleared.
#![tactic(auto)]

ghost use Rattle.std.specs.Prelude.{◌||◌, ◌≡◌, min, ◌+◌, ◌<◌, ◌≤◌, length};
ghost use Rattle.flag_words.specs.Flags.{flags_word, put_flag, put_flags, set_flags, clear_flags, any_flag};

use bits::bit_of;

// The end of the 32 flags from `at` on, or of the flags.
fn end_of(len: usize, at: usize) -> usize
    requires { at ≤ len }
    ensures { result ≡ min (at + 32) len }
{
    if len - at < 32 {
        return len;
    }
    at + 32
}

// The 32 flags from `at` on as a word, the first the lowest bit; past the end they are 0.
pub fn flags_word(flags: &[bool], at: usize) -> u32
    ensures { result ≡ flags_word flags.now at }
{
    if flags.len() <= at {
        return 0;
    }
    let mut word = 0;
    for i in (at..end_of(flags.len(), at)).rev() {
        word = bit_of(flags[i]) + 2 * word;
    }
    word
}

fn put_flag(flags: &mut [bool], i: usize, named: bool, value: bool)
    requires { i < length flags.old }
    ensures { flags.new ≡ put_flag value flags.old i named }
{
    if named {
        flags[i] = value;
    }
}

// Each flag that a 1 bit of the word names, from `at` on, takes the value.
fn put_flags(flags: &mut [bool], at: usize, word: u32, value: bool)
    ensures { flags.new ≡ put_flags value 32 flags.old at word }
{
    let mut w = word;
    for i in at..flags.len() {
        if w == 0 {
            return;
        }
        put_flag(flags, i, w % 2 == 1, value);
        w /= 2;
    }
}

// Set and clear by name: `put_flags` would have a literal at each call.
pub fn set_flags(flags: &mut [bool], at: usize, word: u32)
    ensures { flags.new ≡ set_flags flags.old at word }
{
    put_flags(flags, at, word, true);
}

pub fn clear_flags(flags: &mut [bool], at: usize, word: u32)
    ensures { flags.new ≡ clear_flags flags.old at word }
{
    put_flags(flags, at, word, false);
}

// Whether some flag from `at` on is set.
pub fn any_flag(flags: &[bool], at: usize) -> bool
    ensures { result ≡ any_flag flags.now at }
{
    let mut any = false;
    // No early end: so the compiler tests many flags at a time.
    for i in at..flags.len() {
        any |= flags[i];
    }
    any
}
