// Register reads on a lent state, for every chip: what each register reads, and what a read leaves.
#![tactic(auto)]

ghost use Rattle.std.specs.Prelude.{◌≡◌, ◌-◌, ◌/◌, ◌<◌};
ghost use Rattle.rules.specs.Model.{down, top};
ghost use Rattle.rules.specs.Lent.{SameLoan, answer, view};
ghost use Rattle.rules.specs.declared.Register.TheVariants.{Timer};
ghost use Rattle.rules.specs.Reads.{bank_value, shows_base, intctrl_value, system_value, value_of, after_read};
ghost use Rattle.rules.specs.Registers.{read_call};

use bools::both;
use parts::{accepted, is_privileged};
use rules::{Bank, Chip, Lent, Outcome, Register, SystemRegister, TimerRegister};

fn bank_value(state: &Lent<'_>, bank: Bank, n: usize) -> u32
    ensures { result ≡ bank_value bank n (view state.now) }
{
    match bank {
        Bank::EnableSet => flag_words::flags_word(state.enabled, n),
        Bank::EnableClear => flag_words::flags_word(state.enabled, n),
        Bank::PendingSet => flag_words::flags_word(state.pending, n),
        Bank::PendingClear => flag_words::flags_word(state.pending, n),
        Bank::Active => flag_words::flags_word(state.active, n),
    }
}

// One less than the words that hold a flag of each line.
fn ictype_value(chip: Chip) -> u32
    ensures { result ≡ (chip.lines - 1) / 32 }
{
    if chip.lines == 0 {
        return 0;
    }
    (chip.lines - 1) / 32
}

// The top of a nest of bytes is a byte.
fn newest(nest: &[u8], depth: usize) -> u32
    ensures { (result ≡ top (down nest.now depth)) × (result < 256) }
{
    nvic::nest::top_of(nest, depth)
}

fn intctrl_value(chip: Chip, state: &Lent<'_>) -> u32
    ensures { result ≡ intctrl_value state.now.pending.now (shows_base chip state.now.core.depth) (top (down state.now.nest.now state.now.core.depth)) }
{
    let depth = state.core.depth;
    let base = both(!chip.is_armv6m(), depth < 2);
    control::intctrl_value(state.pending, base, newest(state.nest, depth))
}

fn system_value(chip: Chip, state: &Lent<'_>, register: SystemRegister) -> u32
    requires { state.now.core.group < 8 }
    ensures { result ≡ system_value chip register (view state.now) }
{
    let core = state.core;
    let system = core.system;
    match register {
        SystemRegister::Ictype => ictype_value(chip),
        SystemRegister::Cpuid => 0x412fc230,
        SystemRegister::Intctrl => intctrl_value(chip, state),
        SystemRegister::Vtable => system.vtable,
        SystemRegister::Apint => 0xfa050000 + core.group * 256,
        SystemRegister::Sysctrl => system.sysctrl,
        SystemRegister::Cfgctrl => system.cfgctrl,
        SystemRegister::Syshndctrl => {
            control::syshndctrl_value(state.pending, state.active, state.enabled)
        }
        SystemRegister::Faultstat => system.faultstat,
        SystemRegister::Hfaultstat => system.hfaultstat,
        SystemRegister::Mmaddr => system.mmaddr,
        SystemRegister::Faultaddr => system.faultaddr,
        SystemRegister::Swtrig => 0,
    }
}

fn value_of(chip: Chip, state: &Lent<'_>, register: Register) -> u32
    requires { state.now.core.group < 8 }
    ensures { result ≡ value_of chip register (view state.now) }
{
    let core = state.core;
    let timer = core.timer;
    let guard = core.guard;
    match register {
        Register::Missing => 0,
        Register::Timer(r) => system::timer::timer_value(timer, r),
        Register::Flags(bank, n) => bank_value(state, bank, n),
        Register::Priority(n) => nvic::bytes::bytes_value(state.priority, n),
        Register::System(r) => system_value(chip, state, r),
        Register::Guard(r) => guard.read(r),
        Register::Constant(x) => x,
    }
}

fn timer_read(state: &mut Lent<'_>, register: TimerRegister)
    ensures reads { view state.new ≡ after_read (Timer register) (view state.old) }
    ensures loan { SameLoan state.old state.new }
{
    let timer = state.core.timer;
    state.core.timer = system::timer::timer_read(timer, register);
}

// Only a read of STCTRL changes anything.
fn after_read(state: &mut Lent<'_>, register: Register)
    ensures reads { view state.new ≡ after_read register (view state.old) }
    ensures loan { SameLoan state.old state.new }
{
    match register {
        Register::Missing => {}
        Register::Timer(r) => timer_read(state, r),
        Register::Flags(_, _) => {}
        Register::Priority(_) => {}
        Register::System(_) => {}
        Register::Guard(_) => {}
        Register::Constant(_) => {}
    }
}

pub fn read(chip: Chip, state: &mut Lent<'_>, width: u32, address: u32) -> Outcome
    requires { state.old.core.group < 8 }
    ensures answer { answer result (view state.new) ≡ read_call chip (view state.old) width address }
    ensures loan { SameLoan state.old state.new }
{
    let register = map::register_of(chip, address);
    let allowed = is_privileged(state.core);
    map::checks::access_refusal(chip, register, allowed, width, address)?;
    let word = value_of(chip, state, register);
    after_read(state, register);
    Ok(accepted(map::checks::lane_of(width, address, word)))
}
