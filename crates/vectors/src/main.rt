// Runs each script that the arguments name through the library and compares its text with the file named after it.
// Says of each vector that differs which line is the first to differ, and at the end how many agree.
// Vectors run on the 55-line chip of `run`, and after setup words and their values on the chip that these name, until other words come.
#![tactic(auto)]

ghost use Rattle.std.specs.Prelude.{◌≡◌, ◌+◌, ◌^◌, ◌<◌, ◌≤◌, length, IfSome};
ghost use Rattle.io.specs.Counts.{IsPrefixLen};
ghost use Rattle.rules.specs.Chip.{chip55, chip_of};
ghost use Rattle.text.specs.Text.{text_of};
ghost use Rattle.vectors.specs.Agree.{Agree};
ghost use Rattle.vectors.specs.Way.{chip_by};

use output::Tolerant;
use rules::Setup;
use std::fs::File;
use std::io::{Read, Result, Write};
use std::rt::{Env, Files};

// What a vector runs on. No Option: a variant is a library, and `chip_by` of specs/Way.antt its chip.
#[derive(Clone, Copy)]
enum Way {
    Run,
    AnyRun(Setup),
}

// How many bytes of a text stand in `want` from an offset on.
fn agreeing(want: &[u8], at: usize, text: &[u8]) -> usize
    requires { at ≤ length want.now }
    ensures { Agree want.now at text.now result }
{
    for i in 0..text.len() {
        if want.len() - at <= i || want[at + i] != text[i] {
            return i;
        }
    }
    text.len()
}

// The number of the line that an offset lies in.
fn line_at(want: &[u8], at: usize) -> usize
    requires { (at ≤ length want.now) × (length want.now ≤ 262144) }
    ensures { 0 < result }
{
    want[..at].iter().filter(|b| **b == b'\n').count() + 1
}

// The first line that differs; None says that `want` is the text of the script. `want` is read into an array of that length.
// A while: the end of the script ends it, which is no index.
fn first_difference(script: &[u8], want: &[u8]) -> Option<usize>
    requires { length want.now ≤ 262144 }
    ensures { result ≡ None → want.now ≡ text_of chip55 script.now }
{
    let mut out = io::large_buffer();
    let mut progress = run::start();
    let mut at = 0;
    while !progress.ended {
        progress = run::run_some(script, progress, &mut out);
        let wrote = progress.wrote;
        let same = agreeing(want, at, &out[..wrote]);
        if same < wrote {
            return Some(line_at(want, at + same));
        }
        at += same;
    }
    if at < want.len() {
        return Some(line_at(want, at));
    }
    None
}

// The same on the chip of a setup. A loop of its own: `run` and `any_run` have two types of progress, whose clauses differ (`Ran` of each), so that
// one function over both needs a trait that states them as laws and an impl for each, which is longer than the loop.
fn first_difference_on(setup: Setup, script: &[u8], want: &[u8]) -> Option<usize>
    requires { length want.now ≤ 262144 }
    ensures { result ≡ None → want.now ≡ text_of (chip_of setup) script.now }
{
    let mut out = io::large_buffer();
    let mut progress = any_run::start(setup);
    let mut at = 0;
    while !progress.ended {
        progress = any_run::run_some(script, progress, &mut out);
        let wrote = progress.wrote;
        let same = agreeing(want, at, &out[..wrote]);
        if same < wrote {
            return Some(line_at(want, at + same));
        }
        at += same;
    }
    if at < want.len() {
        return Some(line_at(want, at));
    }
    None
}

// .. and by the way that a vector runs.
fn difference(way: Way, script: &[u8], want: &[u8]) -> Option<usize>
    requires { length want.now ≤ 262144 }
    ensures { result ≡ None → want.now ≡ text_of (chip_by way) script.now }
{
    match way {
        Way::Run => first_difference(script, want),
        Way::AnyRun(setup) => first_difference_on(setup, script, want),
    }
}

// The argument that names a file, whatever its bytes.
fn name(rt: &impl Env, out: &impl Print, i: usize) -> Result<()> {
    let mut space = [0u8; 64];
    let n = setup_words::argument(rt, i, &mut space);
    std::io::writer(out).write_all(&space[..n])
}

// Reads until `space` is full, the file ends or a read fails, and returns how many bytes stand at the start of `space`. A while: a read moves the
// count on by what it gives. `read_exact` does not say how many bytes a file had that ended early, and `read_to_end` needs a heap.
fn read_full(file: &mut impl Read, space: &mut [u8]) -> usize
    ensures { IsPrefixLen result space.new }
{
    let mut done = 0;
    while done < space.len() {
        let got = file.read(&mut space[done..]).unwrap_or(0);
        if got == 0 {
            return done;
        }
        done += got;
    }
    done
}

// Opens the file that an argument names. A name that is not text counts as one that cannot be opened.
fn opened<R: Env + Files>(rt: &R, i: usize) -> Option<R::File> {
    let mut path = [0u8; 64];
    let n = setup_words::argument(rt, i, &mut path);
    let name = str::from_utf8(&path[..n]).ok()?;
    File::open(rt, name).ok()
}

// Reads the file that an argument names, and returns its length: None if it cannot be read or fills the space.
fn read_file<R: Env + Files>(rt: &R, i: usize, space: &mut [u8]) -> Option<usize>
    ensures { IfSome result (λ n. IsPrefixLen n space.new) }
{
    let mut file = opened(rt, i)?;
    let n = read_full(&mut file, space);
    if n < space.len() { Some(n) } else { None }
}

fn unread(rt: &impl Env, out: &impl Print, i: usize) -> Result<()> {
    name(rt, out, i)?;
    println!(out; " cannot be read")
}

fn judged(rt: &impl Env, out: &impl Print, i: usize, difference: Option<usize>) -> Result<bool> {
    let Some(line) = difference else {
        return Ok(true);
    };
    name(rt, out, i)?;
    println!(out; " differs first in line {line}")?;
    Ok(false)
}

// The script that an argument names, and the lines that the next one names: whether they agree.
fn vector<R: Env + Files>(rt: &R, out: &impl Print, way: Way, i: usize) -> Result<bool>
    requires { i + 1 < 2 ^ 64 }
{
    let mut script = [0u8; 65538];
    let mut want = [0u8; 262144];
    let Some(length) = read_file(rt, i, &mut script) else {
        unread(rt, out, i)?;
        return Ok(false);
    };
    let Some(wanted) = read_file(rt, i + 1, &mut want) else {
        unread(rt, out, i + 1)?;
        return Ok(false);
    };
    judged(
        rt,
        out,
        i,
        difference(way, &script[..length], &want[..wanted]),
    )
}

fn is_word(rt: &impl Env, i: usize) -> bool {
    let mut space = [0u8; 64];
    let n = setup_words::argument(rt, i, &mut space);
    space[..n].starts_with(b"--")
}

// Words that follow one another name one setup: `words` are those since the last vector. Words that are wrong are reported, and leave the way.
fn main(rt: HostRuntime) -> Result<()> {
    let out = Tolerant(rt);
    let pairs = setup_words::argument_count(&rt) / 2;
    let mut way = Way::Run;
    let mut words = None;
    let mut agreed: usize = 0;
    let mut vectors: usize = 0;
    for k in 0..pairs {
        let i = 2 * k + 1;
        if is_word(&rt, i) {
            let before = words.unwrap_or(setup_words::start());
            let named = setup_words::pair_at(&rt, before, i, i + 1);
            words = Some(named);
            if named.wrong {
                unread(&rt, &out, i)?;
            } else {
                way = Way::AnyRun(named.setup);
            }
        } else {
            words = None;
            vectors += 1;
            if vector(&rt, &out, way, i)? {
                agreed += 1;
            }
        }
    }
    println!(out; "{agreed} of {vectors} vectors agree")
}
