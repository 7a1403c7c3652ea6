// The checks of a register access: width, alignment, privilege; and the byte of a word. Access verdicts share the first two.
ghost use Rattle.std.specs.Prelude.{◌≡◌, ◌%◌, eqb};
ghost use Rattle.rules.specs.Registers.{is_width, access_refusal, lane_of};
ghost use Rattle.map.specs.Checks.{refusal_number};

use super::width_refusal;
use refusals::Refusal;
use rules::{Chip, Register};

pub fn is_width(w: u32) -> bool
    ensures { result ≡ is_width w }
{
    match w {
        1 => true,
        2 => true,
        4 => true,
        _ => false,
    }
}

pub fn is_aligned(a: u32, w: u32) -> bool
    ensures { result ≡ eqb (a % w) 0 }
{
    if w == 0 {
        return a == 0;
    }
    a % w == 0
}

// `allowed` says that the privilege of the access suffices.
pub fn access_refusal(
    chip: Chip,
    register: Register,
    allowed: bool,
    w: u32,
    a: u32,
) -> Result<(), Refusal>
    ensures { refusal_number result ≡ access_refusal chip register allowed w a }
{
    if !is_width(w) {
        return Err(Refusal::Width);
    }
    if !is_aligned(a, w) {
        return Err(Refusal::Unaligned);
    }
    if !allowed {
        return Err(Refusal::Unprivileged);
    }
    width_refusal(chip, register, w)
}

// What an access of the width w at a answers of the word x.
pub fn lane_of(w: u32, a: u32, x: u32) -> u32
    ensures { result ≡ lane_of w a x }
{
    if w == 4 {
        return x;
    }
    bits::wide(bits::byte_of(x, a % 4))
}
