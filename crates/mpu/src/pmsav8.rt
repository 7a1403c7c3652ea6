// The registers of PMSAv8, ARMv8-M's guard: their map, and what they keep.
ghost use Rattle.std.specs.Prelude.{◌≡◌};
ghost use Rattle.mpu.specs.Pmsav8.{pmsav8_register_at, region_of, kept_rlar};

use crate::MpuRegister;

// The register at a byte offset from 0xE000ED90.
pub fn register_at(offset: u32) -> MpuRegister
    ensures { result ≡ pmsav8_register_at offset }
{
    match offset {
        0x00 => MpuRegister::Kind,
        0x04 => MpuRegister::Control,
        0x08 => MpuRegister::Number,
        0x0c => MpuRegister::Rbar(0),
        0x10 => MpuRegister::Rlar(0),
        0x14 => MpuRegister::Rbar(1),
        0x18 => MpuRegister::Rlar(1),
        0x1c => MpuRegister::Rbar(2),
        0x20 => MpuRegister::Rlar(2),
        0x24 => MpuRegister::Rbar(3),
        0x28 => MpuRegister::Rlar(3),
        0x30 => MpuRegister::Mair0,
        0x34 => MpuRegister::Mair1,
        _ => MpuRegister::Missing,
    }
}

// The region that a pair of registers shows.
#[tactic(auto, unfolding(crate::specs::Pmsav8::region_of))]
pub fn region_of(pair: u32, selected: u32) -> u32
    ensures { result ≡ region_of pair selected }
{
    if pair == 0 {
        return selected;
    }
    selected / 4 * 4 + pair % 4
}

pub fn kept_rlar(x: u32) -> u32
    ensures { result ≡ kept_rlar x }
{
    x & 0xffffffef
}
