// Numbers as decimal text, and the two lines of `bench`, written into lent bytes from an offset.
// Every call needs room for the longest text that it may write; its callers test the room first.
#![tactic(auto)]

ghost use Rattle.std.specs.Prelude.{◌≡◌, ◌+◌, ◌≤◌, length, nat_abs};
ghost use Rattle.decimal.specs.Decimal.{digits, field, signed, line_text, broken_text, decimal_room, field_room, line_room, broken_room};
ghost use Rattle.decimal.specs.Written.{Puts};

// How many digits a number has.
fn places(n: u32) -> usize
    ensures { result ≡ length (digits n) }
{
    match n {
        0..=9 => 1,
        10..=99 => 2,
        100..=999 => 3,
        1_000..=9_999 => 4,
        10_000..=99_999 => 5,
        100_000..=999_999 => 6,
        1_000_000..=9_999_999 => 7,
        10_000_000..=99_999_999 => 8,
        100_000_000..=999_999_999 => 9,
        _ => 10,
    }
}

// The digits are written from the last to the first, and the first needs no division.
pub fn put_decimal(out: &mut [u8], at: usize, n: u32) -> usize
    requires { at + decimal_room ≤ length out.old }
    ensures puts { Puts at (digits n) out.old result out.new }
    ensures within { result ≤ at + decimal_room }
{
    let next = at + places(n);
    let mut last = next - 1;
    let mut rest = n;
    // A while: what ends it is `rest`, which no index or list gives.
    while rest >= 10 {
        out[last] = (48 + rest % 10) as u8;
        rest /= 10;
        last -= 1;
    }
    out[last] = (48 + rest) as u8;
    next
}

// A number and a space.
fn put_field(out: &mut [u8], at: usize, n: u32) -> usize
    requires { at + field_room ≤ length out.old }
    ensures puts { Puts at (field n) out.old result out.new }
    ensures within { result ≤ at + field_room }
{
    let end = put_decimal(out, at, n);
    out[end] = b' ';
    end + 1
}

// A number without its sign.
fn magnitude(z: i32) -> u32
    ensures { result ≡ nat_abs z }
{
    if z < 0 {
        return (0 - (z as i64)) as u32;
    }
    z as u32
}

// A number with its sign, where it has one.
fn put_signed(out: &mut [u8], at: usize, z: i32) -> usize
    requires { at + field_room ≤ length out.old }
    ensures puts { Puts at (signed z) out.old result out.new }
    ensures within { result ≤ at + field_room }
{
    if z < 0 {
        out[at] = b'-';
        return put_decimal(out, at + 1, magnitude(z));
    }
    put_decimal(out, at, magnitude(z))
}

// The line of one event.
pub fn put_line(
    out: &mut [u8],
    at: usize,
    number: u32,
    refusal: u32,
    value: u32,
    top: u32,
    priority: i32,
) -> usize
    requires { at + line_room ≤ length out.old }
    ensures puts { Puts at (line_text number refusal value top priority) out.old result out.new }
    ensures within { result ≤ at + line_room }
{
    let a = put_field(out, at, number);
    let b = put_field(out, a, refusal);
    let c = put_field(out, b, value);
    let d = put_field(out, c, top);
    let end = put_signed(out, d, priority);
    out[end] = b'\n';
    end + 1
}

// A fixed text.
fn put_text(out: &mut [u8], at: usize, text: &[u8]) -> usize
    requires { at + length text.now ≤ length out.old }
    ensures { Puts at text.now out.old result out.new }
{
    let end = at + text.len();
    out[at..end].copy_from_slice(text);
    end
}

// The line that ends a broken script.
pub fn put_broken(out: &mut [u8], at: usize, refusal: u32, offset: u32) -> usize
    requires { at + broken_room ≤ length out.old }
    ensures puts { Puts at (broken_text refusal offset) out.old result out.new }
    ensures within { result ≤ at + broken_room }
{
    let a = put_text(out, at, b"script ");
    let b = put_decimal(out, a, refusal);
    let c = put_text(out, b, b" at ");
    let d = put_decimal(out, c, offset);
    out[d] = b'\n';
    d + 1
}
