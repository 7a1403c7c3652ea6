// What the rules and the code of every chip share: the chip itself, the parts of the state that hold no array, and the names of the
// registers.
#![tactic(auto)]

ghost use Rattle.std.specs.Prelude.{◌≡◌};
ghost use Rattle.rules.specs.Chip.{chip_of, is_armv6m, fits};
ghost use Rattle.rules.specs.Lent.{seen, view};

use bools::both;
use mpu::{Edition, Mpu, MpuRegister};
use refusals::Refusal;
use systick::Timer;

// The architecture of the core: document 01's, or that of the Cortex-M0 (document 02, E10), which has less.
#[derive(Clone, Copy, PartialEq, Eq, Debug)]
pub enum Profile {
    Armv7m,
    Armv6m,
}

// A chip: its profile, which guard it has (ARMv6-M has none, whatever stands there), how many lines, and how many bits of a priority byte it keeps.
#[derive(Clone, Copy, PartialEq, Eq, Debug)]
pub struct Chip {
    pub profile: Profile,
    pub guard: Edition,
    pub lines: u32,
    pub bits: u32,
}

// The chips that there are: a Cortex-M3 with 55 lines (document 01) or with 240 (document 02, E4), the Cortex-M0 with 32 (E10).
#[derive(Clone, Copy, PartialEq, Eq, Debug)]
pub enum Part {
    Lines55,
    Lines240,
    CortexM0,
}

// How a caller names a chip: `chip_of` of the rules. `bits` is how many bits of a priority byte are kept (CMSIS calls it __NVIC_PRIO_BITS): any
// number may stand there, and outside 3 to 8 every call refuses it by 17. `guard` is the edition of its MPU. The Cortex-M0 keeps two bits and has no
// MPU, whatever stands there.
#[derive(Clone, Copy, PartialEq, Eq, Debug)]
pub struct Setup {
    pub part: Part,
    pub bits: u32,
    pub guard: Edition,
}

impl Chip {
    pub fn is_armv6m(self) -> bool
        ensures { result ≡ is_armv6m self }
    {
        let profile = self.profile;
        match profile {
            Profile::Armv7m => false,
            Profile::Armv6m => true,
        }
    }

    // The test of refusal 17.
    pub fn fits(self) -> bool
        ensures { result ≡ fits self }
    {
        if self.is_armv6m() {
            return self.bits == 2;
        }
        both(3 <= self.bits, self.bits <= 8)
    }
}

impl Setup {
    pub fn chip(self) -> Chip
        ensures { result ≡ chip_of self }
    {
        let part = self.part;
        let bits = self.bits;
        let guard = self.guard;
        match part {
            Part::Lines55 => Chip {
                profile: Profile::Armv7m,
                guard,
                lines: 55,
                bits,
            },
            Part::Lines240 => Chip {
                profile: Profile::Armv7m,
                guard,
                lines: 240,
                bits,
            },
            Part::CortexM0 => Chip {
                profile: Profile::Armv6m,
                guard: Edition::Pmsav7,
                lines: 32,
                bits: 2,
            },
        }
    }
}

// Where a flag may stand: at any exception, at those with an enable bit of their own, at the lines.
#[derive(Clone, Copy, PartialEq, Eq, Debug)]
pub enum Place {
    Exception,
    Enable,
    Line,
}

// The masks and CONTROL. `npriv` is CONTROL bit 0, `spsel` bit 1.
#[derive(Clone, Copy, PartialEq, Eq, Debug)]
pub struct Masks {
    pub primask: bool,
    pub faultmask: bool,
    pub basepri: u8,
    pub npriv: bool,
    pub spsel: bool,
}

// The registers of the system block that are plain storage.
#[derive(Clone, Copy, PartialEq, Eq, Debug)]
pub struct System {
    pub vtable: u32,
    pub sysctrl: u32,
    pub cfgctrl: u32,
    pub faultstat: u32,
    pub hfaultstat: u32,
    pub mmaddr: u32,
    pub faultaddr: u32,
}

// The parts of a state that hold no array of the chip's size: the same struct for every chip. `depth` stands beside the nest, an array of fixed
// size: there is no heap, and `unused_sound` speaks of the places past it.
#[derive(Clone, Copy, PartialEq, Eq, Debug)]
pub struct Core {
    pub depth: usize,
    pub group: u32,
    pub masks: Masks,
    pub timer: Timer,
    pub guard: Mpu,
    pub system: System,
}

// A state whose lists are lent: flags and priority bytes at exception numbers, the nest with the newest last, and the rises that each line lost.
#[derive(Drop)]
pub struct Lent<'a> {
    pub pending: &'a mut [bool],
    pub active: &'a mut [bool],
    pub enabled: &'a mut [bool],
    pub level: &'a mut [bool],
    pub priority: &'a mut [u8],
    pub nest: &'a mut [u8],
    pub lost: &'a mut [u16],
    pub core: Core,
}

// The same state, lent to be looked at.
#[derive(Clone, Copy)]
pub struct Shown<'a> {
    pub pending: &'a [bool],
    pub active: &'a [bool],
    pub enabled: &'a [bool],
    pub level: &'a [bool],
    pub priority: &'a [u8],
    pub nest: &'a [u8],
    pub lost: &'a [u16],
    pub core: &'a Core,
}

impl Lent<'_> {
    pub fn shown(&self) -> Shown<'_>
        ensures { seen result ≡ view self.now }
    {
        Shown {
            pending: self.pending,
            active: self.active,
            enabled: self.enabled,
            level: self.level,
            priority: self.priority,
            nest: self.nest,
            lost: self.lost,
            core: &self.core,
        }
    }
}

// What a call answers that is not refused: the value, and of an entry the vector address and the link value.
#[derive(Clone, Copy, PartialEq, Eq, Debug)]
pub struct Accepted {
    pub value: u32,
    pub vector: u32,
    pub link: u32,
}

// An answer, beside the state that it leaves.
pub type Outcome = Result<Accepted, Refusal>;

#[derive(Clone, Copy, PartialEq, Eq, Debug)]
pub enum TimerRegister {
    Stctrl,
    Streload,
    Stcurrent,
}

// The registers that show a flag of each of 32 lines.
#[derive(Clone, Copy, PartialEq, Eq, Debug)]
pub enum Bank {
    EnableSet,
    EnableClear,
    PendingSet,
    PendingClear,
    Active,
}

#[derive(Clone, Copy, PartialEq, Eq, Debug)]
pub enum SystemRegister {
    Ictype,
    Cpuid,
    Intctrl,
    Vtable,
    Apint,
    Sysctrl,
    Cfgctrl,
    Syshndctrl,
    Faultstat,
    Hfaultstat,
    Mmaddr,
    Faultaddr,
    Swtrig,
}

// A register, by the part of the model that it shows. Flags and priority bytes carry the number of the first exception shown. A constant reads as
// its number and ignores writes. Missing is no register, and a case here since the maps of specs/ (`register_at`, `width_refusal`) answer it.
#[derive(Clone, Copy, PartialEq, Eq, Debug)]
pub enum Register {
    Missing,
    Timer(TimerRegister),
    Flags(Bank, usize),
    Priority(usize),
    System(SystemRegister),
    Guard(MpuRegister),
    Constant(u32),
}
