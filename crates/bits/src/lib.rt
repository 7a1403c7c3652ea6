#![tactic(auto)]

ghost use Rattle.std.specs.Prelude.{true, false, ◌≡◌, ◌<◌, ◌≤◌};
ghost use Rattle.bits.specs.Words.{bit, field, kept, bit_at, with_bit, without, byte_at, word_of_bytes};

// Bits h:l of x as a number.
pub fn field(x: u32, h: u32, l: u32) -> u32
    requires { (l ≤ h) × (h < 32) }
    ensures { result ≡ field h l x }
{
    let s = 31 - h;
    x << s >> (s + l)
}

// Bits h:l of x in their places.
pub fn kept_bits(x: u32, h: u32, l: u32) -> u32
    requires { (l ≤ h) × (h < 32) }
    ensures { result ≡ kept h l x }
{
    field(x, h, l) << l
}

pub fn test_bit(x: u32, k: u32) -> bool
    requires { k < 32 }
    ensures { result ≡ bit_at k x }
{
    (x >> k) % 2 == 1
}

// Set and clear by name: one function over a flag would have a literal at each call.
pub fn set_bit(x: u32, k: u32) -> u32
    requires { k < 32 }
    ensures { result ≡ with_bit k true x }
{
    if test_bit(x, k) {
        return x;
    }
    x + (1 << k)
}

pub fn clear_bit(x: u32, k: u32) -> u32
    requires { k < 32 }
    ensures { result ≡ with_bit k false x }
{
    if test_bit(x, k) {
        return x - (1 << k);
    }
    x
}

// The bits of x that are not 1 in `ones`: a 1 written clears a bit.
pub fn clear_ones(x: u32, ones: u32) -> u32
    ensures { result ≡ without 32 x ones }
{
    x & !ones
}

// Byte i of x, byte 0 the lowest.
pub fn byte_of(x: u32, i: u32) -> u8
    requires { i < 4 }
    ensures { result ≡ byte_at i x }
{
    ((x >> (8 * i)) % 256) as u8
}

// The library's conversion by name: callers' proofs cite the bound.
pub fn wide(x: u8) -> u32
    ensures { (result ≡ x) × (result < 256) }
{
    u32::from(x)
}

// Four bytes as a word, lowest first.
pub fn word_of_bytes(b0: u8, b1: u8, b2: u8, b3: u8) -> u32
    ensures { result ≡ word_of_bytes b0 b1 b2 b3 }
{
    wide(b0) + 256 * wide(b1) + 65536 * wide(b2) + 16777216 * wide(b3)
}

// A flag as a bit.
pub fn bit_of(flag: bool) -> u32
    ensures { result ≡ bit flag }
{
    u32::from(flag)
}
