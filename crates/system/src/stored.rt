// The registers of the system block that are plain storage.
ghost use Rattle.std.specs.Prelude.{◌≡◌};
ghost use Rattle.rules.specs.SystemBlock.{kept_vtable, kept_sysctrl, kept_cfgctrl, kept_faultstat};
ghost use Rattle.rules.specs.Sound.{sound_system};
ghost use Rattle.rules.specs.Writes.{with_vtable, with_sysctrl, with_cfgctrl, with_faultstat, with_hfaultstat, stored_written};

use bools::both;
use rules::{Chip, System, SystemRegister};

// A table of so many words, its size rounded up to a power of 2: 512 bytes up to 128 vectors, then 1024.
fn kept_vtable(chip: Chip, x: u32) -> u32
    ensures { result ≡ kept_vtable chip x }
{
    if exceptions::flag_count(chip) <= 128 {
        return bits::kept_bits(x, 29, 9);
    }
    bits::kept_bits(x, 29, 10)
}

fn kept_sysctrl(x: u32) -> u32
    ensures { result ≡ kept_sysctrl x }
{
    bits::kept_bits(x, 4, 4) + bits::kept_bits(x, 2, 1)
}

fn kept_cfgctrl(x: u32) -> u32
    ensures { result ≡ kept_cfgctrl x }
{
    bits::kept_bits(x, 9, 8) + bits::kept_bits(x, 4, 3) + bits::kept_bits(x, 1, 1)
}

fn kept_faultstat(x: u32) -> u32
    ensures { result ≡ kept_faultstat x }
{
    bits::kept_bits(x, 25, 24)
        + bits::kept_bits(x, 19, 15)
        + bits::kept_bits(x, 9, 7)
        + bits::kept_bits(x, 1, 0)
}

fn with_vtable(mut system: System, x: u32) -> System
    ensures { result ≡ with_vtable x system }
{
    system.vtable = x;
    system
}

fn with_sysctrl(mut system: System, x: u32) -> System
    ensures { result ≡ with_sysctrl x system }
{
    system.sysctrl = x;
    system
}

fn with_cfgctrl(mut system: System, x: u32) -> System
    ensures { result ≡ with_cfgctrl x system }
{
    system.cfgctrl = x;
    system
}

fn with_faultstat(mut system: System, x: u32) -> System
    ensures { result ≡ with_faultstat x system }
{
    system.faultstat = x;
    system
}

fn with_hfaultstat(mut system: System, x: u32) -> System
    ensures { result ≡ with_hfaultstat x system }
{
    system.hfaultstat = x;
    system
}

// A 1 written to a status register clears that bit.
pub fn stored_written(chip: Chip, system: System, register: SystemRegister, v: u32) -> System
    ensures { result ≡ stored_written chip register v system }
{
    match register {
        SystemRegister::Vtable => with_vtable(system, kept_vtable(chip, v)),
        SystemRegister::Sysctrl => with_sysctrl(system, kept_sysctrl(v)),
        SystemRegister::Cfgctrl => with_cfgctrl(system, kept_cfgctrl(v)),
        SystemRegister::Faultstat => with_faultstat(system, bits::clear_ones(system.faultstat, v)),
        SystemRegister::Hfaultstat => with_hfaultstat(
            system,
            bits::clear_ones(system.hfaultstat, v),
        ),
        SystemRegister::Ictype => system,
        SystemRegister::Cpuid => system,
        SystemRegister::Intctrl => system,
        SystemRegister::Apint => system,
        SystemRegister::Syshndctrl => system,
        SystemRegister::Mmaddr => system,
        SystemRegister::Faultaddr => system,
        SystemRegister::Swtrig => system,
    }
}

// Each register holds only its kept bits.
pub fn sound_system(chip: Chip, system: System) -> bool
    ensures { result ≡ sound_system chip system }
{
    let vtable = kept_vtable(chip, system.vtable) == system.vtable;
    let sysctrl = kept_sysctrl(system.sysctrl) == system.sysctrl;
    let cfgctrl = kept_cfgctrl(system.cfgctrl) == system.cfgctrl;
    let faultstat = kept_faultstat(system.faultstat) == system.faultstat;
    let hfaultstat = bits::kept_bits(system.hfaultstat, 30, 30) == system.hfaultstat;
    let control = both(both(vtable, sysctrl), cfgctrl);
    both(both(control, faultstat), hfaultstat)
}
