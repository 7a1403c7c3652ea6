// INTCTRL, SYSHNDCTRL, APINT and SWTRIG: the registers of the system block that show or change flags.
#![tactic(auto)]

ghost use Rattle.std.specs.Prelude.{◌≡◌, ◌*◌, ◌^◌, ◌≤◌, ◌<◌};
ghost use Rattle.bits.specs.Words.{bit};
ghost use Rattle.flag_words.specs.Flags.{on};
ghost use Rattle.rules.specs.Reads.{intctrl_value, syshndctrl_value};
ghost use Rattle.rules.specs.Writes.{set_or_clear, intctrl_written, syshndctrl_written, apint_written, swtrig_written};
ghost use Rattle.control.specs.Shown.{enables_shown, pendings_shown, actives_shown};

use nvic::flags::flag_at;
use nvic::lists::store;
use rules::Chip;

// A flag as a bit of the given weight.
fn weighed(flag: bool, weight: u32) -> u32
    ensures { (result ≡ bit flag * weight) × (result ≤ weight) }
{
    if flag {
        return weight;
    }
    0
}

// Flag n as a bit of the given weight.
fn shown(flags: &[bool], n: usize, weight: u32) -> u32
    ensures { (result ≡ bit (on flags.now n) * weight) × (result ≤ weight) }
{
    weighed(flag_at(flags, n), weight)
}

// `base` is bit 11; `top` is an exception number: the nest holds bytes.
pub fn intctrl_value(pending: &[bool], base: bool, top: u32) -> u32
    requires { top < 256 }
    ensures { result ≡ intctrl_value pending.now base top }
{
    shown(pending, 2, 0x80000000)
        + shown(pending, 14, 0x10000000)
        + shown(pending, 15, 0x4000000)
        + weighed(flag_words::any_flag(pending, 16), 0x400000)
        + weighed(base, 0x800)
        + top
}

// A pair of bits: clear wins.
fn set_or_clear(pending: &mut [bool], n: usize, sets: bool, clears: bool)
    ensures { pending.new ≡ set_or_clear n sets clears pending.old }
{
    if clears {
        store(pending, n, false);
    } else if sets {
        store(pending, n, true);
    }
}

pub fn intctrl_written(pending: &mut [bool], v: u32)
    ensures { pending.new ≡ intctrl_written v pending.old }
{
    set_or_clear(pending, 2, bits::test_bit(v, 31), false);
    set_or_clear(pending, 14, bits::test_bit(v, 28), bits::test_bit(v, 27));
    set_or_clear(pending, 15, bits::test_bit(v, 26), bits::test_bit(v, 25));
}

// SYSHNDCTRL bits 18:16.
fn enables_shown(enabled: &[bool]) -> u32
    ensures { (result ≡ enables_shown enabled.now) × (result < 2 ^ 19) }
{
    shown(enabled, 6, 0x40000) + shown(enabled, 5, 0x20000) + shown(enabled, 4, 0x10000)
}

// SYSHNDCTRL bits 15:12.
fn pendings_shown(pending: &[bool]) -> u32
    ensures { (result ≡ pendings_shown pending.now) × (result < 2 ^ 16) }
{
    shown(pending, 11, 0x8000)
        + shown(pending, 5, 0x4000)
        + shown(pending, 4, 0x2000)
        + shown(pending, 6, 0x1000)
}

// SYSHNDCTRL bits 11:0.
fn actives_shown(active: &[bool]) -> u32
    ensures { (result ≡ actives_shown active.now) × (result < 2 ^ 12) }
{
    shown(active, 15, 0x800)
        + shown(active, 14, 0x400)
        + shown(active, 11, 0x80)
        + shown(active, 6, 8)
        + shown(active, 5, 2)
        + shown(active, 4, 1)
}

// Three lists and nothing else of a state, as the definition.
pub fn syshndctrl_value(pending: &[bool], active: &[bool], enabled: &[bool]) -> u32
    ensures { result ≡ syshndctrl_value pending.now active.now enabled.now }
{
    enables_shown(enabled) + pendings_shown(pending) + actives_shown(active)
}

pub fn syshndctrl_written(enabled: &mut [bool], v: u32)
    ensures { enabled.new ≡ syshndctrl_written v enabled.old }
{
    store(enabled, 4, bits::test_bit(v, 16));
    store(enabled, 5, bits::test_bit(v, 17));
    store(enabled, 6, bits::test_bit(v, 18));
}

// The group setting after v is written to APINT.
pub fn apint_written(v: u32, group: u32) -> u32
    ensures { result ≡ apint_written v group }
{
    if bits::field(v, 31, 16) == 0x5fa {
        return bits::field(v, 10, 8);
    }
    group
}

pub fn swtrig_written(pending: &mut [bool], chip: Chip, v: u32)
    ensures { pending.new ≡ swtrig_written chip v pending.old }
{
    let line = bits::field(v, 8, 0);
    if line < chip.lines {
        store(pending, 16 + line as usize, true);
    }
}
