// The map of ARMv6-M.
ghost use Rattle.std.specs.Prelude.{◌≡◌};
ghost use Rattle.rules.specs.MapArmv6m.{armv6m_block, armv6m_register};

use super::{bank_register, bytes_or};
use rules::{Chip, Register, SystemRegister, TimerRegister};

fn block_register(chip: Chip, a: u32) -> Register
    ensures { result ≡ armv6m_block chip a }
{
    bank_register(chip, a, bytes_or(chip, a, Register::Missing))
}

// The register at an aligned address.
pub fn register_at(chip: Chip, address: u32) -> Register
    ensures { result ≡ armv6m_register chip address }
{
    match address {
        0xe000e010 => Register::Timer(TimerRegister::Stctrl),
        0xe000e014 => Register::Timer(TimerRegister::Streload),
        0xe000e018 => Register::Timer(TimerRegister::Stcurrent),
        0xe000ed00 => Register::Constant(0x410cc200),
        0xe000ed04 => Register::System(SystemRegister::Intctrl),
        0xe000ed0c => Register::Constant(0xfa050000),
        0xe000ed10 => Register::System(SystemRegister::Sysctrl),
        0xe000ed14 => Register::Constant(0x208),
        0xe000ed1c => Register::Priority(8),
        0xe000ed20 => Register::Priority(12),
        _ => block_register(chip, address),
    }
}
