// Soundness follows the chip: what stands past its numbers, or where none of its exceptions is, is refused by 16 by every call.
ghost use Rattle.std.specs.Prelude.{◌<◌};

use super::registers::chip;
use super::show::{Case, judged};
use any_chip::{Reply, State};
use calls::Calls;
use rules::Part;
use script::Event;
use std::io::Result;

// The lists of a state.
#[derive(Clone, Copy)]
enum Field {
    Pending,
    Active,
    Enabled,
    Level,
    Priority,
    Nest,
    Lost,
}

// A flag, priority byte, place of the nest or count put into a state.
fn poked(mut s: State, field: Field, i: usize) -> State
    requires { i < 240 }
{
    match field {
        Field::Pending => s.pending[i] = true,
        Field::Active => s.active[i] = true,
        Field::Enabled => s.enabled[i] = true,
        Field::Level => s.level[i] = true,
        Field::Priority => s.priority[i] = 0x20,
        Field::Nest => s.nest[i] = 20,
        Field::Lost => s.lost[i] = 1,
    }
    s
}

// The refusal, and whether anything else is not 0 or moved.
fn refused(rt: &impl Print, before: State, r: Reply) -> Result<()> {
    let nothing = r.value == 0 && r.vector == 0 && r.link == 0 && r.state == before;
    let more = if nothing { "" } else { " and more" };
    print!(rt; " {}{more}", r.refusal)
}

// The thirteen calls, then `step`. Most of them would be refused by another number after 16.
fn every_call(rt: &impl Print, s: State) -> Result<()> {
    refused(rt, s, s.read(3, 0xe000e001))?;
    refused(rt, s, s.write(4, 0xe000e100, 1))?;
    refused(rt, s, s.line(300, 2))?;
    refused(rt, s, s.nmi())?;
    refused(rt, s, s.tick())?;
    refused(rt, s, s.fault(2, 0))?;
    refused(rt, s, s.svc())?;
    refused(rt, s, s.special(5, 1))?;
    refused(rt, s, s.entry())?;
    refused(rt, s, s.return_(0xfffffff9))?;
    refused(rt, s, s.access(3, 3, 1))?;
    refused(rt, s, s.lost(300))?;
    refused(rt, s, s.skip(0xffffffff))?;
    refused(rt, s, s.step(Event::Tick))?;
    Ok(())
}

// Whether it is sound; if it is not, what every call says.
pub fn tried(rt: &impl Print, label: &str, s: State) -> Result<()> {
    let sound = s.is_sound();
    let case = Case {
        setup: s.setup,
        label,
    };
    print!(rt; "{case} {}", judged(sound))?;
    if !sound {
        every_call(rt, s)?;
    }
    println!(rt; "")
}

fn place(rt: &impl Print, label: &str, part: Part, field: Field, i: usize) -> Result<()>
    requires { i < 240 }
{
    tried(rt, label, poked(chip(part), field, i))?;
    Ok(())
}

// 20 is active and not nested.
pub fn unsound(s: State) -> State {
    poked(s, Field::Active, 20)
}

// "the nested exceptions are distinct and exactly the active ones", so that an active flag or a place of the nest alone is sound on no chip.
fn nested(rt: &impl Print, part: Part) -> Result<()> {
    let mut s = poked(chip(part), Field::Active, 100);
    s.nest[0] = 100;
    s.core.depth = 1;
    tried(rt, "active at 100, nested", s)?;
    Ok(())
}

fn table(rt: &impl Print, label: &str, part: Part, vtable: u32) -> Result<()> {
    let mut s = chip(part);
    s.core.system.vtable = vtable;
    tried(rt, label, s)?;
    Ok(())
}

// The old chip has numbers 0 to 70, 63 places of the nest and 55 lines, the new one 0 to 255, 248 and 240; 7 is no exception. Bit 9 of VTABLE is kept by the
// old chip only, bit 30 by neither.
pub fn cases(rt: &impl Print, part: Part) -> Result<()> {
    place(rt, "pending at 100", part, Field::Pending, 100)?;
    place(rt, "active at 100", part, Field::Active, 100)?;
    place(rt, "enabled at 100", part, Field::Enabled, 100)?;
    place(rt, "level at 100", part, Field::Level, 100)?;
    place(rt, "priority 0x20 at 100", part, Field::Priority, 100)?;
    place(rt, "nest place 100", part, Field::Nest, 100)?;
    place(rt, "count 1 of line 54", part, Field::Lost, 54)?;
    place(rt, "count 1 of line 55", part, Field::Lost, 55)?;
    place(rt, "count 1 of line 239", part, Field::Lost, 239)?;
    nested(rt, part)?;
    place(rt, "pending at 7", part, Field::Pending, 7)?;
    table(rt, "VTABLE 0x200 in the state", part, 0x200)?;
    table(rt, "VTABLE 0x40000000 in the state", part, 0x40000000)?;
    Ok(())
}
