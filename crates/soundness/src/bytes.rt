// Priority bytes hold only the kept bits, and 0 where no exception has a byte.
ghost use Rattle.std.specs.Prelude.{◌≡◌, ◌&&◌, ◌||◌, eqb, length};
ghost use Rattle.grouping.specs.Grouping.{kept_byte};
ghost use Rattle.rules.specs.Chip.{flag_count, has_byte};
ghost use Rattle.bools.specs.Every.{every};
ghost use Rattle.rules.specs.Sound.{byte_sound};

use bits::wide;
use bools::both;
use exceptions::has_byte;
use grouping::kept_byte;
use rules::Chip;

fn is_kept(byte: u8, bits: u32) -> bool
    ensures { result ≡ eqb (kept_byte bits byte) byte }
{
    kept_byte(wide(byte), bits) == byte
}

// Byte n. A byte that is 0 costs one test.
fn byte_sound(chip: Chip, byte: u8, n: usize) -> bool
    ensures { result ≡ (eqb (kept_byte chip.bits byte) byte && (has_byte chip n || eqb byte 0)) }
{
    byte == 0 || is_kept(byte, chip.bits) && has_byte(chip, n)
}

// The bytes of system exceptions, and of the numbers below 16 that are none.
fn low_bytes_sound(chip: Chip, priority: &[u8]) -> bool
    requires { length priority.now ≡ flag_count chip }
    ensures { result ≡ every (byte_sound chip priority.now) 16 }
{
    for n in 0..16 {
        if !byte_sound(chip, priority[n], n) {
            return false;
        }
    }
    true
}

// The array of a state has the chip's length. From 16 on every number is a line and has a byte, so only its bits are looked at, with no early
// end: a scan that always runs to its end is done many places at a time.
pub fn bytes_sound(chip: Chip, priority: &[u8]) -> bool
    requires { length priority.now ≡ flag_count chip }
    ensures { result ≡ every (byte_sound chip priority.now) (flag_count chip) }
{
    let mut ok = low_bytes_sound(chip, priority);
    for n in 16..priority.len() {
        ok = both(is_kept(priority[n], chip.bits), ok);
    }
    ok
}
