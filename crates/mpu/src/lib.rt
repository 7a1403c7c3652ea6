// The MPU, a guard of eight regions, in two editions, and its registers. What it allows is in `verdicts` and `editions`.
#![tactic(auto)]

ghost use Rattle.std.specs.Prelude.{◌≡◌, length, get_or, set};
ghost use Rattle.bools.specs.Every.{every};
ghost use Rattle.mpu.specs.Registers.{fresh_mpu, mpu_register_at, kept_base, kept_attributes, read_mpu, with_control, write_number, with_base, write_base, with_attributes, write_mpu};
ghost use Rattle.mpu.specs.Pmsav8.{read_rbar, read_rlar, with_rbar, with_rlar, with_mair0, with_mair1};
ghost use Rattle.mpu.specs.Editions.{guard_register_at, kept_first, kept_second, kept_plain};
ghost use Rattle.mpu.specs.Soundness.{region_kept, plain_kept, sound_mpu};
ghost use Rattle.mpu.specs.Unused.{zero_at, is_unused};

use pmsav8::{kept_rlar, region_of};

mod pmsav8;

// Which guard it is: ARMv7-M's, which document 01 describes, or ARMv8-M's (document 02, E12).
#[derive(Clone, Copy, PartialEq, Eq, Debug)]
pub enum Edition {
    Pmsav7,
    Pmsav8,
}

// The registers' words. A region has two: in PMSAv7 a base, without its low five bits, and attributes; in PMSAv8 RBAR, where the base
// stands, and RLAR, where the attributes stand. MAIR0 and MAIR1 are PMSAv8's, and 0 in PMSAv7.
// Two arrays, not one of pairs: `sound_mpu`, `Covered` and `Reordered` speak of two lists.
#[derive(Clone, Copy, PartialEq, Eq, Debug)]
pub struct Mpu {
    pub control: u32,
    pub region: u32,
    pub bases: [u32; 8],
    pub attributes: [u32; 8],
    pub mair0: u32,
    pub mair1: u32,
}

// Kind is the type register at ED90; Missing is no register, and a case here since the maps of specs/ (`mpu_register_at`) and `guard_register` of the rules answer it. Rbar and Rlar have the number of their pair, 0 to 3.
#[derive(Clone, Copy, PartialEq, Eq, Debug)]
pub enum MpuRegister {
    Kind,
    Control,
    Number,
    Base,
    Attributes,
    Rbar(u32),
    Rlar(u32),
    Mair0,
    Mair1,
    Missing,
}

// PMSAv7's register at a byte offset from 0xE000ED90.
fn register_at(offset: u32) -> MpuRegister
    ensures { result ≡ mpu_register_at offset }
{
    match offset {
        0x00 => MpuRegister::Kind,
        0x04 => MpuRegister::Control,
        0x08 => MpuRegister::Number,
        0x0c => MpuRegister::Base,
        0x10 => MpuRegister::Attributes,
        0x14 => MpuRegister::Base,
        0x18 => MpuRegister::Attributes,
        0x1c => MpuRegister::Base,
        0x20 => MpuRegister::Attributes,
        0x24 => MpuRegister::Base,
        0x28 => MpuRegister::Attributes,
        _ => MpuRegister::Missing,
    }
}

// The register of a guard at a byte offset from 0xE000ED90.
#[tactic(auto, unfolding(crate::specs::Editions::guard_register_at))]
pub fn guard_register_at(edition: Edition, offset: u32) -> MpuRegister
    ensures { result ≡ guard_register_at edition offset }
{
    match edition {
        Edition::Pmsav7 => register_at(offset),
        Edition::Pmsav8 => pmsav8::register_at(offset),
    }
}

fn kept_base(x: u32) -> u32
    ensures { result ≡ kept_base x }
{
    x & 0xffffffe0
}

fn kept_attributes(x: u32) -> u32
    ensures { result ≡ kept_attributes x }
{
    x & 0x173fff3f
}

fn kept_first(edition: Edition, x: u32) -> u32
    ensures { result ≡ kept_first edition x }
{
    match edition {
        Edition::Pmsav7 => kept_base(x),
        Edition::Pmsav8 => x,
    }
}

#[tactic(auto, unfolding(crate::specs::Editions::kept_second))]
fn kept_second(edition: Edition, x: u32) -> u32
    ensures { result ≡ kept_second edition x }
{
    match edition {
        Edition::Pmsav7 => kept_attributes(x),
        Edition::Pmsav8 => kept_rlar(x),
    }
}

fn kept_plain(edition: Edition, x: u32) -> u32
    ensures { result ≡ kept_plain edition x }
{
    match edition {
        Edition::Pmsav7 => 0,
        Edition::Pmsav8 => x,
    }
}

// An unsound guard may select a region past the last: it reads 0, and a write there is lost.
fn word_at(words: &[u32], n: u32) -> u32
    ensures { result ≡ get_or words.now n 0 }
{
    words.get(n as usize).copied().unwrap_or(0)
}

fn with_word(mut words: [u32; 8], n: u32, x: u32) -> [u32; 8]
    ensures { result ≡ set words n x }
{
    let i = n as usize;
    if i < words.len() {
        words[i] = x;
    }
    words
}

// No early end, here and in `all_clear`: so the compiler tests many words at a time.
fn regions_kept(edition: Edition, bases: &[u32; 8], attributes: &[u32; 8]) -> bool
    ensures { result ≡ every (region_kept edition bases.now attributes.now) 8 }
{
    let mut ok = true;
    for (base, attributes) in bases.iter().zip(attributes) {
        let first = kept_first(edition, *base) == *base;
        let second = kept_second(edition, *attributes) == *attributes;
        ok &= first & second;
    }
    ok
}

fn all_clear(words: &[u32; 8]) -> bool
    ensures { result ≡ every (zero_at words.now) 8 }
{
    let mut ok = true;
    for word in words {
        ok &= *word == 0;
    }
    ok
}

impl Mpu {
    #[tactic(auto, unfolding(crate::specs::Registers::fresh_mpu))]
    pub fn fresh() -> Mpu
        ensures { result ≡ fresh_mpu }
    {
        Mpu {
            control: 0,
            region: 0,
            bases: [0; 8],
            attributes: [0; 8],
            mair0: 0,
            mair1: 0,
        }
    }

    #[tactic(auto, unfolding(crate::specs::Soundness::plain_kept))]
    fn plain_kept(self, edition: Edition) -> bool
        ensures { result ≡ plain_kept edition self }
    {
        kept_plain(edition, self.mair0) == self.mair0
            && kept_plain(edition, self.mair1) == self.mair1
    }

    #[tactic(auto, unfolding(crate::specs::Soundness::sound_mpu))]
    pub fn is_sound(self, edition: Edition) -> bool
        ensures { result ≡ sound_mpu edition self }
    {
        self.control < 8
            && self.region < 8
            && regions_kept(edition, &self.bases, &self.attributes)
            && self.plain_kept(edition)
    }

    // Whether all its words are 0, as those of a chip without a guard are.
    #[tactic(auto, unfolding(crate::specs::Unused::is_unused))]
    pub fn is_unused(self) -> bool
        ensures { result ≡ is_unused self }
    {
        self.control == 0
            && self.region == 0
            && all_clear(&self.bases)
            && all_clear(&self.attributes)
            && self.mair0 == 0
            && self.mair1 == 0
    }

    #[tactic(auto, unfolding(crate::specs::Pmsav8::read_rbar))]
    fn read_rbar(self, pair: u32) -> u32
        ensures { result ≡ read_rbar pair self }
    {
        word_at(&self.bases, region_of(pair, self.region))
    }

    #[tactic(auto, unfolding(crate::specs::Pmsav8::read_rlar))]
    fn read_rlar(self, pair: u32) -> u32
        ensures { result ≡ read_rlar pair self }
    {
        word_at(&self.attributes, region_of(pair, self.region))
    }

    pub fn read(self, register: MpuRegister) -> u32
        ensures { result ≡ read_mpu register self }
    {
        match register {
            MpuRegister::Kind => 0x800,
            MpuRegister::Control => self.control,
            MpuRegister::Number => self.region,
            MpuRegister::Base => kept_base(word_at(&self.bases, self.region)) + self.region % 16,
            MpuRegister::Attributes => word_at(&self.attributes, self.region),
            MpuRegister::Rbar(pair) => self.read_rbar(pair),
            MpuRegister::Rlar(pair) => self.read_rlar(pair),
            MpuRegister::Mair0 => self.mair0,
            MpuRegister::Mair1 => self.mair1,
            MpuRegister::Missing => 0,
        }
    }

    #[tactic(auto, unfolding(crate::specs::Registers::with_base))]
    fn with_base(mut self, n: u32, x: u32) -> Mpu
        ensures { result ≡ with_base n x self }
    {
        self.region = n;
        self.bases = with_word(self.bases, n, kept_base(x));
        self
    }

    #[tactic(auto, unfolding(crate::specs::Registers::write_base))]
    fn write_base(self, x: u32) -> Mpu
        ensures { result ≡ write_base x self }
    {
        if (x >> 4) % 2 == 0 {
            return self.with_base(self.region, x);
        }
        if 7 < x % 16 {
            return self;
        }
        self.with_base(x % 16, x)
    }

    #[tactic(auto, unfolding(crate::specs::Registers::with_attributes))]
    fn write_attributes(mut self, x: u32) -> Mpu
        ensures { result ≡ with_attributes x self }
    {
        self.attributes = with_word(self.attributes, self.region, kept_attributes(x));
        self
    }

    #[tactic(auto, unfolding(crate::specs::Registers::write_number))]
    fn write_number(mut self, x: u32) -> Mpu
        ensures { result ≡ write_number x self }
    {
        if 7 < x {
            return self;
        }
        self.region = x;
        self
    }

    fn with_control(mut self, x: u32) -> Mpu
        ensures { result ≡ with_control x self }
    {
        self.control = x % 8;
        self
    }

    fn with_rbar(mut self, pair: u32, x: u32) -> Mpu
        ensures { result ≡ with_rbar pair x self }
    {
        self.bases = with_word(self.bases, region_of(pair, self.region), x);
        self
    }

    #[tactic(auto, unfolding(crate::specs::Pmsav8::with_rlar))]
    fn with_rlar(mut self, pair: u32, x: u32) -> Mpu
        ensures { result ≡ with_rlar pair x self }
    {
        self.attributes = with_word(self.attributes, region_of(pair, self.region), kept_rlar(x));
        self
    }

    // A function for each register, as in the definitions: a field is no parameter.
    fn with_mair0(mut self, x: u32) -> Mpu
        ensures { result ≡ with_mair0 x self }
    {
        self.mair0 = x;
        self
    }

    fn with_mair1(mut self, x: u32) -> Mpu
        ensures { result ≡ with_mair1 x self }
    {
        self.mair1 = x;
        self
    }

    #[tactic(auto, unfolding(crate::specs::Registers::write_mpu))]
    pub fn write(self, register: MpuRegister, x: u32) -> Mpu
        ensures { result ≡ write_mpu register x self }
    {
        match register {
            MpuRegister::Kind => self,
            MpuRegister::Control => self.with_control(x),
            MpuRegister::Number => self.write_number(x),
            MpuRegister::Base => self.write_base(x),
            MpuRegister::Attributes => self.write_attributes(x),
            MpuRegister::Rbar(pair) => self.with_rbar(pair, x),
            MpuRegister::Rlar(pair) => self.with_rlar(pair, x),
            MpuRegister::Mair0 => self.with_mair0(x),
            MpuRegister::Mair1 => self.with_mair1(x),
            MpuRegister::Missing => self,
        }
    }
}
