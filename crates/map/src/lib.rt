// The register map: the register at an address, and the widths that it takes.
#![tactic(auto)]

ghost use Rattle.std.specs.Prelude.{◌≡◌, cond, ◌&&◌, ◌||◌, eqb, ◌+◌, ◌-◌, ◌^◌, ◌<◌, ◌≤◌};
ghost use Rattle.mpu.specs.Editions.{guard_register_at};
ghost use Rattle.rules.specs.declared.Register.TheVariants.{Flags, Priority};
ghost use Rattle.rules.specs.Blocks.{flag_words, byte_words, in_block, first_flag, bank_register};
ghost use Rattle.rules.specs.Map.{guard_register, block_register, register_at, register_of, width_refusal};
ghost use Rattle.rules.specs.Chip.{is_armv6m};
ghost use Rattle.map.specs.Checks.{refusal_number};

mod armv6m;
pub mod checks;

use mpu::MpuRegister;
use refusals::Refusal;
use rules::{Bank, Chip, Register, SystemRegister, TimerRegister};

fn flag_words(chip: Chip) -> usize
    ensures { result ≡ flag_words chip }
{
    (chip.lines as usize + 31) / 32
}

fn byte_words(chip: Chip) -> usize
    ensures { result ≡ byte_words chip }
{
    (chip.lines as usize + 3) / 4
}

// Whether a stands in the block of so many words from `base` on. The words are a chip's, whose lines fit 32 bits, or the MPU's 14.
fn in_block(base: u32, words: usize, a: u32) -> bool
    requires { words < 2 ^ 32 }
    ensures { result ≡ in_block base words a }
{
    if a < base {
        return false;
    }
    (a as usize) < base as usize + 4 * words
}

// The first exception of the flags at a, which the caller has found in the block.
fn first_flag(base: u32, a: u32) -> usize
    requires { base ≤ a }
    ensures { result ≡ first_flag base a }
{
    16 + 8 * (a - base) as usize
}

fn guard_register(register: MpuRegister) -> Register
    ensures { result ≡ guard_register register }
{
    match register {
        MpuRegister::Missing => Register::Missing,
        MpuRegister::Kind => Register::Guard(register),
        MpuRegister::Control => Register::Guard(register),
        MpuRegister::Number => Register::Guard(register),
        MpuRegister::Base => Register::Guard(register),
        MpuRegister::Attributes => Register::Guard(register),
        MpuRegister::Rbar(_) => Register::Guard(register),
        MpuRegister::Rlar(_) => Register::Guard(register),
        MpuRegister::Mair0 => Register::Guard(register),
        MpuRegister::Mair1 => Register::Guard(register),
    }
}

// The flags of a bank if a stands in its block, else what is there otherwise.
fn flags_or(chip: Chip, base: u32, bank: Bank, a: u32, otherwise: Register) -> Register
    ensures { result ≡ cond (in_block base (flag_words chip) a) (Flags bank (first_flag base a)) otherwise }
{
    if in_block(base, flag_words(chip), a) {
        return Register::Flags(bank, first_flag(base, a));
    }
    otherwise
}

fn bytes_or(chip: Chip, a: u32, otherwise: Register) -> Register
    ensures { result ≡ cond (in_block 0xE000E400 (byte_words chip) a) (Priority (16 + (a - 0xE000E400))) otherwise }
{
    if in_block(0xe000e400, byte_words(chip), a) {
        return Register::Priority(16 + (a - 0xe000e400) as usize);
    }
    otherwise
}

fn guard_or(chip: Chip, a: u32, otherwise: Register) -> Register
    ensures { result ≡ cond (in_block 0xE000ED90 14 a) (guard_register (guard_register_at chip.guard (a - 0xE000ED90))) otherwise }
{
    if in_block(0xe000ed90, 14, a) {
        let edition = chip.guard;
        return guard_register(mpu::guard_register_at(edition, a - 0xe000ed90));
    }
    otherwise
}

// The banks that both profiles have, from the last to the first.
fn bank_register(chip: Chip, a: u32, otherwise: Register) -> Register
    ensures { result ≡ bank_register chip a otherwise }
{
    let clear = flags_or(chip, 0xe000e280, Bank::PendingClear, a, otherwise);
    let set = flags_or(chip, 0xe000e200, Bank::PendingSet, a, clear);
    let disable = flags_or(chip, 0xe000e180, Bank::EnableClear, a, set);
    flags_or(chip, 0xe000e100, Bank::EnableSet, a, disable)
}

// The blocks, whose length is the chip's, from the last to the first.
fn block_register(chip: Chip, a: u32) -> Register
    ensures { result ≡ block_register chip a }
{
    let guard = guard_or(chip, a, Register::Missing);
    let bytes = bytes_or(chip, a, guard);
    let active = flags_or(chip, 0xe000e300, Bank::Active, a, bytes);
    bank_register(chip, a, active)
}

// ARMv7-M's register at an aligned address.
fn register_at(chip: Chip, address: u32) -> Register
    ensures { result ≡ register_at chip address }
{
    match address {
        0xe000e004 => Register::System(SystemRegister::Ictype),
        0xe000e010 => Register::Timer(TimerRegister::Stctrl),
        0xe000e014 => Register::Timer(TimerRegister::Streload),
        0xe000e018 => Register::Timer(TimerRegister::Stcurrent),
        0xe000ed00 => Register::System(SystemRegister::Cpuid),
        0xe000ed04 => Register::System(SystemRegister::Intctrl),
        0xe000ed08 => Register::System(SystemRegister::Vtable),
        0xe000ed0c => Register::System(SystemRegister::Apint),
        0xe000ed10 => Register::System(SystemRegister::Sysctrl),
        0xe000ed14 => Register::System(SystemRegister::Cfgctrl),
        0xe000ed18 => Register::Priority(4),
        0xe000ed1c => Register::Priority(8),
        0xe000ed20 => Register::Priority(12),
        0xe000ed24 => Register::System(SystemRegister::Syshndctrl),
        0xe000ed28 => Register::System(SystemRegister::Faultstat),
        0xe000ed2c => Register::System(SystemRegister::Hfaultstat),
        0xe000ed34 => Register::System(SystemRegister::Mmaddr),
        0xe000ed38 => Register::System(SystemRegister::Faultaddr),
        0xe000ef00 => Register::System(SystemRegister::Swtrig),
        _ => block_register(chip, address),
    }
}

// The register of the word that holds the address.
pub fn register_of(chip: Chip, address: u32) -> Register
    ensures { result ≡ register_of chip address }
{
    let aligned = address - address % 4;
    if chip.is_armv6m() {
        return armv6m::register_at(chip, aligned);
    }
    register_at(chip, aligned)
}

fn word_only(w: u32) -> Result<(), Refusal>
    ensures { refusal_number result ≡ cond (eqb w 4) 0 5 }
{
    if w == 4 {
        return Ok(());
    }
    Err(Refusal::RegisterWidth)
}

// Priority bytes are read and written one by one too, but not on ARMv6-M.
fn bytes_too(chip: Chip, w: u32) -> Result<(), Refusal>
    ensures { refusal_number result ≡ cond (eqb w 2 || (is_armv6m chip && eqb w 1)) 5 0 }
{
    if w == 2 {
        return Err(Refusal::RegisterWidth);
    }
    if chip.is_armv6m() {
        if w == 1 {
            return Err(Refusal::RegisterWidth);
        }
    }
    Ok(())
}

pub fn width_refusal(chip: Chip, register: Register, w: u32) -> Result<(), Refusal>
    ensures { refusal_number result ≡ width_refusal chip register w }
{
    match register {
        Register::Missing => Err(Refusal::NoRegister),
        Register::Timer(_) => word_only(w),
        Register::Flags(_, _) => word_only(w),
        Register::Priority(_) => bytes_too(chip, w),
        Register::System(_) => word_only(w),
        Register::Guard(_) => word_only(w),
        Register::Constant(_) => word_only(w),
    }
}
