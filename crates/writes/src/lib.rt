// Register writes on a lent state, for every chip.
#![tactic(auto)]

ghost use Rattle.std.specs.Prelude.{◌≡◌, ◌||◌, ◌<◌};
ghost use Rattle.rules.specs.Model.{with_system};
ghost use Rattle.rules.specs.Lent.{SameLoan, answer, view};
ghost use Rattle.rules.specs.Priorities.{privileged};
ghost use Rattle.rules.specs.Writes.{bank_written, stored_written, system_written, word_written, byte_written};
ghost use Rattle.rules.specs.Registers.{free_write, write_call};

use parts::{accepted, is_privileged};
use rules::{Bank, Chip, Core, Lent, Outcome, Register, SystemRegister};

fn bank_written(state: &mut Lent<'_>, bank: Bank, n: usize, v: u32)
    ensures writes { view state.new ≡ bank_written bank n v (view state.old) }
    ensures loan { SameLoan state.old state.new }
{
    match bank {
        Bank::EnableSet => flag_words::set_flags(state.enabled, n, v),
        Bank::EnableClear => flag_words::clear_flags(state.enabled, n, v),
        Bank::PendingSet => flag_words::set_flags(state.pending, n, v),
        Bank::PendingClear => nvic::flags::clear_pending(state, n, v),
        Bank::Active => {}
    }
}

fn stored_written(chip: Chip, state: &mut Lent<'_>, register: SystemRegister, v: u32)
    ensures writes { view state.new ≡ with_system (stored_written chip register v state.old.core.system) (view state.old) }
    ensures loan { SameLoan state.old state.new }
{
    let system = state.core.system;
    state.core.system = system::stored::stored_written(chip, system, register, v);
}

fn system_written(chip: Chip, state: &mut Lent<'_>, register: SystemRegister, v: u32)
    ensures writes { view state.new ≡ system_written chip register v (view state.old) }
    ensures loan { SameLoan state.old state.new }
{
    match register {
        SystemRegister::Intctrl => control::intctrl_written(state.pending, v),
        SystemRegister::Apint => {
            let group = state.core.group;
            state.core.group = control::apint_written(v, group);
        }
        SystemRegister::Syshndctrl => control::syshndctrl_written(state.enabled, v),
        SystemRegister::Swtrig => control::swtrig_written(state.pending, chip, v),
        SystemRegister::Vtable => stored_written(chip, state, register, v),
        SystemRegister::Sysctrl => stored_written(chip, state, register, v),
        SystemRegister::Cfgctrl => stored_written(chip, state, register, v),
        SystemRegister::Faultstat => stored_written(chip, state, register, v),
        SystemRegister::Hfaultstat => stored_written(chip, state, register, v),
        SystemRegister::Ictype => {}
        SystemRegister::Cpuid => {}
        SystemRegister::Mmaddr => {}
        SystemRegister::Faultaddr => {}
    }
}

fn word_written(chip: Chip, state: &mut Lent<'_>, register: Register, v: u32)
    ensures writes { view state.new ≡ word_written chip register v (view state.old) }
    ensures loan { SameLoan state.old state.new }
{
    match register {
        Register::Missing => {}
        Register::Timer(r) => {
            let timer = state.core.timer;
            state.core.timer = system::timer::timer_written(timer, r, v);
        }
        Register::Flags(bank, n) => bank_written(state, bank, n, v),
        Register::Priority(n) => nvic::bytes::put_bytes(state.priority, chip, n, v),
        Register::System(r) => system_written(chip, state, r, v),
        Register::Guard(r) => {
            let guard = state.core.guard;
            state.core.guard = guard.write(r, v);
        }
        Register::Constant(_) => {}
    }
}

fn byte_written(chip: Chip, state: &mut Lent<'_>, register: Register, lane: u32, v: u32)
    requires { lane < 4 }
    ensures writes { view state.new ≡ byte_written chip register lane v (view state.old) }
    ensures loan { SameLoan state.old state.new }
{
    match register {
        Register::Missing => {}
        Register::Timer(_) => {}
        Register::Flags(_, _) => {}
        Register::Priority(n) => nvic::bytes::put_byte_after(state.priority, chip, n, lane, v),
        Register::System(_) => {}
        Register::Guard(_) => {}
        Register::Constant(_) => {}
    }
}

// A word write to SWTRIG needs no privilege where CFGCTRL bit 1 is set.
fn free_write(core: Core, width: u32, address: u32) -> bool
    ensures { result ≡ free_write core width address }
{
    if width == 4 {
        if address == 0xe000ef00 {
            let system = core.system;
            return bits::test_bit(system.cfgctrl, 1);
        }
    }
    false
}

// Whether the privilege suffices for a write.
fn may_write(core: Core, width: u32, address: u32) -> bool
    ensures { result ≡ (privileged core || free_write core width address) }
{
    if is_privileged(core) {
        return true;
    }
    free_write(core, width, address)
}

pub fn write(chip: Chip, state: &mut Lent<'_>, width: u32, address: u32, value: u32) -> Outcome
    ensures answer { answer result (view state.new) ≡ write_call chip (view state.old) width address value }
    ensures loan { SameLoan state.old state.new }
{
    let register = map::register_of(chip, address);
    let allowed = may_write(state.core, width, address);
    map::checks::access_refusal(chip, register, allowed, width, address)?;
    if width == 4 {
        word_written(chip, state, register, value);
        return Ok(accepted(0));
    }
    byte_written(chip, state, register, address % 4, value);
    Ok(accepted(0))
}
