// The words after a program's name that name a setup.
#![tactic(auto)]

ghost use Rattle.std.specs.Prelude.{◌≡◌, ◌≤◌, length};
ghost use Rattle.setup_words.specs.Words.{is_same, is_digit, are_digits, is_number, with_digit, number_from, started, mistaken, with_lines, with_part, keeping, guarded_by, with_core, core_by, lines_by, bits_by, guard_by, paired};

use mpu::Edition;
use rules::{Part, Setup};
use std::env::FillError;
use std::rt::Env;

// The setup named so far, which words named it, and whether one of the words or values was wrong. The flags are fields beside the setup:
// `started` and `paired` of specs/Words.antt state them so, with a value of the setup before a word names it.
#[derive(Clone, Copy)]
pub struct Words {
    pub setup: Setup,
    pub core: bool,
    pub lines: bool,
    pub bits: bool,
    pub guard: bool,
    pub wrong: bool,
}

fn same(a: &[u8], b: &[u8]) -> bool
    ensures { result ≡ is_same a.now b.now }
{
    a == b
}

// The lines named, whichever word comes first: the Cortex-M0 has its own.
fn with_lines(named: Part, part: Part) -> Part
    ensures { result ≡ with_lines named part }
{
    match named {
        Part::Lines55 | Part::Lines240 => part,
        Part::CortexM0 => named,
    }
}

impl Words {
    fn mistaken(self) -> Words
        ensures { result ≡ mistaken self }
    {
        Words {
            wrong: true,
            ..self
        }
    }

    fn with_part(self, part: Part) -> Words
        ensures { result ≡ with_part self part }
    {
        let setup = Setup {
            part: with_lines(self.setup.part, part),
            ..self.setup
        };
        Words {
            setup,
            lines: true,
            ..self
        }
    }

    fn keeping(self, bits: u32) -> Words
        ensures { result ≡ keeping self bits }
    {
        let setup = Setup { bits, ..self.setup };
        Words {
            setup,
            bits: true,
            ..self
        }
    }

    fn guarded_by(self, guard: Edition) -> Words
        ensures { result ≡ guarded_by self guard }
    {
        let setup = Setup {
            guard,
            ..self.setup
        };
        Words {
            setup,
            guard: true,
            ..self
        }
    }

    fn with_core(self, part: Part) -> Words
        ensures { result ≡ with_core self part }
    {
        let setup = Setup { part, ..self.setup };
        Words {
            setup,
            core: true,
            ..self
        }
    }
}

fn is_digit(b: u8) -> bool
    ensures { result ≡ is_digit b }
{
    b'0' <= b && b <= b'9'
}

fn are_digits(bytes: &[u8]) -> bool
    ensures { result ≡ are_digits bytes.now }
{
    bytes.iter().all(|b| is_digit(*b))
}

fn is_number(bytes: &[u8]) -> bool
    ensures { result ≡ is_number bytes.now }
{
    !bytes.is_empty() && are_digits(bytes)
}

fn with_digit(n: u32, b: u8) -> u32
    ensures { result ≡ with_digit n b }
{
    let digit = u32::from(b.saturating_sub(b'0'));
    n.saturating_mul(10).saturating_add(digit)
}

fn number_of(bytes: &[u8]) -> u32
    ensures { result ≡ number_from 0 bytes.now }
{
    bytes.iter().fold(0, |n, b| with_digit(n, *b))
}

#[tactic(auto, unfolding(crate::specs::Words::core_by))]
fn core_by(words: Words, value: &[u8]) -> Words
    ensures { result ≡ core_by words value.now }
{
    if words.core {
        return words.mistaken();
    }
    if same(value, b"m3") {
        return words.with_core(words.setup.part);
    }
    if same(value, b"m0") {
        return words.with_core(Part::CortexM0);
    }
    words.mistaken()
}

#[tactic(auto, unfolding(crate::specs::Words::lines_by))]
fn lines_by(words: Words, value: &[u8]) -> Words
    ensures { result ≡ lines_by words value.now }
{
    if words.lines {
        return words.mistaken();
    }
    if same(value, b"55") {
        return words.with_part(Part::Lines55);
    }
    if same(value, b"240") {
        return words.with_part(Part::Lines240);
    }
    words.mistaken()
}

#[tactic(auto, unfolding(crate::specs::Words::bits_by))]
fn bits_by(words: Words, value: &[u8]) -> Words
    ensures { result ≡ bits_by words value.now }
{
    if words.bits {
        return words.mistaken();
    }
    if is_number(value) {
        return words.keeping(number_of(value));
    }
    words.mistaken()
}

#[tactic(auto, unfolding(crate::specs::Words::guard_by))]
fn guard_by(words: Words, value: &[u8]) -> Words
    ensures { result ≡ guard_by words value.now }
{
    if words.guard {
        return words.mistaken();
    }
    if same(value, b"pmsav7") {
        return words.guarded_by(Edition::Pmsav7);
    }
    if same(value, b"pmsav8") {
        return words.guarded_by(Edition::Pmsav8);
    }
    words.mistaken()
}

// Before the first word: the Cortex-M3 with 55 lines, three bits, the guard of ARMv7-M.
pub fn start() -> Words
    ensures { result ≡ started }
{
    Words {
        setup: Setup {
            part: Part::Lines55,
            bits: 3,
            guard: Edition::Pmsav7,
        },
        core: false,
        lines: false,
        bits: false,
        guard: false,
        wrong: false,
    }
}

// One word more, and its value.
#[tactic(auto, unfolding(crate::specs::Words::paired))]
pub fn pair(words: Words, word: &[u8], value: &[u8]) -> Words
    ensures { result ≡ paired words word.now value.now }
{
    if same(word, b"--lines") {
        return lines_by(words, value);
    }
    if same(word, b"--bits") {
        return bits_by(words, value);
    }
    if same(word, b"--guard") {
        return guard_by(words, value);
    }
    if same(word, b"--core") {
        return core_by(words, value);
    }
    words.mistaken()
}

// Puts an argument's bytes at the start of `space` and returns how many they are: none where it is missing or longer.
pub fn argument(rt: &impl Env, i: usize, space: &mut [u8]) -> usize
    ensures { result ≤ length space.new }
{
    rt.arg(i, space).unwrap_or(0)
}

// How many arguments there are, the program's name among them. No clause says so: of `arg` an `Env` promises only that it writes no more than
// there is room for, not which arguments there are.
pub fn argument_count(rt: &impl Env) -> usize {
    for i in 0..usize::MAX {
        let mut space = [0u8; 1];
        if let Err(FillError::NotPresent) = rt.arg(i, &mut space) {
            return i;
        }
    }
    usize::MAX
}

// The arguments at two places, a word and its value. One that is missing or longer than its space counts as empty.
pub fn pair_at(rt: &impl Env, words: Words, word: usize, value: usize) -> Words {
    let mut word_space = [0u8; 16];
    let mut value_space = [0u8; 64];
    let n = argument(rt, word, &mut word_space);
    let m = argument(rt, value, &mut value_space);
    pair(words, &word_space[..n], &value_space[..m])
}

// The program's own arguments.
pub fn named(rt: &impl Env) -> Words {
    let pairs = argument_count(rt) / 2;
    let mut words = start();
    for k in 0..pairs {
        let word = 2 * k + 1;
        words = pair_at(rt, words, word, word + 1);
    }
    words
}
