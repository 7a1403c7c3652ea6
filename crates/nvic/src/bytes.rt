// Priority bytes, one or four at a time. Past the end a byte reads 0 and takes nothing.
ghost use Rattle.std.specs.Prelude.{◌≡◌, ◌+◌, ◌<◌, get_or};
ghost use Rattle.bits.specs.Words.{byte_at};
ghost use Rattle.rules.specs.Reads.{bytes_value};
ghost use Rattle.rules.specs.Writes.{with_byte, with_bytes};

use super::lists::{at_or, store};
use exceptions::has_byte;
use rules::Chip;

// Byte n + k.
fn byte_after(priority: &[u8], n: usize, k: usize) -> u8
    ensures { result ≡ get_or priority.now (n + k) 0 }
{
    at_or(priority, n.saturating_add(k), 0)
}

// The bytes from n on as a word, the first the lowest.
pub fn bytes_value(priority: &[u8], n: usize) -> u32
    ensures { result ≡ bytes_value priority.now n }
{
    bits::word_of_bytes(
        byte_after(priority, n, 0),
        byte_after(priority, n, 1),
        byte_after(priority, n, 2),
        byte_after(priority, n, 3),
    )
}

// The low byte of b at n, cut to the chip's bits; nothing where no exception has a byte.
pub fn put_byte(priority: &mut [u8], chip: Chip, n: usize, b: u32)
    ensures { priority.new ≡ with_byte chip n b priority.old }
{
    if has_byte(chip, n) {
        store(priority, n, grouping::kept_byte(b, chip.bits));
    }
}

// The same at n + lane.
pub fn put_byte_after(priority: &mut [u8], chip: Chip, n: usize, lane: u32, b: u32)
    requires { lane < 4 }
    ensures { priority.new ≡ with_byte chip (n + lane) b priority.old }
{
    if let Some(i) = n.checked_add(lane as usize) {
        put_byte(priority, chip, i, b);
    }
}

// Byte `lane` of v at n + lane.
fn put_lane(priority: &mut [u8], chip: Chip, n: usize, lane: u32, v: u32)
    requires { lane < 4 }
    ensures { priority.new ≡ with_byte chip (n + lane) (byte_at lane v) priority.old }
{
    put_byte_after(priority, chip, n, lane, bits::wide(bits::byte_of(v, lane)));
}

pub fn put_bytes(priority: &mut [u8], chip: Chip, n: usize, v: u32)
    ensures { priority.new ≡ with_bytes chip n v priority.old }
{
    put_lane(priority, chip, n, 0, v);
    put_lane(priority, chip, n, 1, v);
    put_lane(priority, chip, n, 2, v);
    put_lane(priority, chip, n, 3, v);
}
