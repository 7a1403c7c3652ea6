// How many flags and exceptions a chip has, which numbers are exceptions, and where a flag of each kind may stand.
#![tactic(auto)]

ghost use Rattle.std.specs.Prelude.{◌≡◌};
ghost use Rattle.rules.specs.Chip.{flag_count, exception_count, is_in, configurable, is_line, exists, has_byte, has_enable, stands};

use rules::{Chip, Place};

pub fn flag_count(chip: Chip) -> usize
    ensures { result ≡ flag_count chip }
{
    16 + chip.lines as usize
}

pub fn exception_count(chip: Chip) -> usize
    ensures { result ≡ exception_count chip }
{
    if chip.is_armv6m() {
        return 5 + chip.lines as usize;
    }
    8 + chip.lines as usize
}

pub fn is_line(chip: Chip, n: usize) -> bool
    ensures { result ≡ is_line chip n }
{
    if n < 16 {
        return false;
    }
    n - 16 < chip.lines as usize
}

// The faults that have an enable bit in SYSHNDCTRL, which ARMv6-M lacks.
fn is_configurable(chip: Chip, n: usize) -> bool
    ensures { result ≡ is_in n (configurable chip) }
{
    if chip.is_armv6m() {
        return false;
    }
    match n {
        4 => true, // MemManage
        5 => true, // BusFault
        6 => true, // UsageFault
        _ => false,
    }
}

pub fn has_enable(chip: Chip, n: usize) -> bool
    ensures { result ≡ has_enable chip n }
{
    if is_configurable(chip, n) {
        return true;
    }
    is_line(chip, n)
}

pub fn exists(chip: Chip, n: usize) -> bool
    ensures { result ≡ exists chip n }
{
    match n {
        2 => true, // NMI
        3 => true, // HardFault
        11 => true, // SVCall
        14 => true, // PendSV
        15 => true, // SysTick
        _ => has_enable(chip, n),
    }
}

pub fn has_byte(chip: Chip, n: usize) -> bool
    ensures { result ≡ has_byte chip n }
{
    if n < 4 {
        return false;
    }
    exists(chip, n)
}

pub fn stands(chip: Chip, place: Place, n: usize) -> bool
    ensures { result ≡ stands chip place n }
{
    match place {
        Place::Exception => exists(chip, n),
        Place::Enable => has_enable(chip, n),
        Place::Line => is_line(chip, n),
    }
}
