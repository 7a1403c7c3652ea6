// Numbers of a script: groups of seven bits, lowest first, bit 7 set where more follow.
#![tactic(auto)]

ghost use Rattle.std.specs.Prelude.{◌≡◌, [], ◌∷◌, ◌+◌, ◌<◌, ◌≤◌, length, get_or};
ghost use Rattle.std.proofs.lemmas.List.Edits.{sets};
ghost use Rattle.numbers.specs.Answers.{number_answer};
ghost use Rattle.numbers.specs.Number.{groups, number_at};
ghost use Rattle.numbers.specs.Window.{groups_of};

// The number that starts with the group a. Bytes by value stay in registers; a slice would be copied at each call.
// What follows a group is below 2^25 exactly where the number is below 2^32.
fn read_groups(a: u8, b: u8, c: u8, d: u8, e: u8, left: u32) -> Option<u32>
    ensures { result ≡ groups_of (a ∷ b ∷ c ∷ d ∷ e ∷ []) left }
{
    if left == 0 {
        return None;
    }
    let group = a as u32;
    if group < 128 {
        return Some(group);
    }
    let rest = read_groups(b, c, d, e, 128, left - 1)?;
    if rest == 0 {
        return None;
    }
    if rest < 0x2000000 {
        return Some(group - 128 + 128 * rest);
    }
    None
}

// The byte at an offset; past the end 128, a group that more must follow.
fn byte(bytes: &[u8], at: usize) -> u8
    ensures { result ≡ get_or bytes.now at 128 }
{
    bytes.get(at).copied().unwrap_or(128)
}

// A number of several groups. It has one spelling, so what it is tells how long it is.
fn read_long(bytes: &[u8], at: usize) -> Option<(u32, usize)>
    ensures { result ≡ number_at bytes.now at }
{
    if bytes.len() <= at {
        return None;
    }
    let a = byte(bytes, at);
    let b = byte(bytes, at + 1);
    let c = byte(bytes, at + 2);
    let d = byte(bytes, at + 3);
    let n = read_groups(a, b, c, d, byte(bytes, at + 4), 5)?;
    Some((n, at + size(n, 5)))
}

// The number that starts at an offset, and the offset after it; none that is cut short, too large or not in its shortest form.
pub fn read_number(bytes: &[u8], at: usize) -> Option<(u32, usize)>
    ensures value { result ≡ number_at bytes.now at }
    ensures numbers { number_answer result ≡ number_answer (number_at bytes.now at) }
{
    if at < bytes.len() {
        let first = bytes[at] as u32;
        if first < 128 {
            return Some((first, at + 1));
        }
    }
    read_long(bytes, at)
}

// How many groups a number has. Called with `left` from 5 down.
pub fn size(n: u32, left: u32) -> usize
    requires { left ≤ 5 }
    ensures { result ≡ length (groups left n) }
{
    if left == 0 {
        return 0;
    }
    if n < 128 {
        return 1;
    }
    1 + size(n / 128, left - 1)
}

// Writes the groups of a number. Called with `left` from 5 down, where they fit.
pub fn write_groups(out: &mut [u8], at: usize, n: u32, left: u32)
    requires { at + length (groups left n) ≤ length out.old }
    ensures { out.new ≡ sets out.old at (groups left n) }
{
    if left == 0 {
        return;
    }
    if n < 128 {
        out[at] = n as u8;
        return;
    }
    out[at] = (n % 128 + 128) as u8;
    write_groups(out, at + 1, n / 128, left - 1);
}
