// Scripts (documents 01 and 02): the events that a script holds, one event read and one written.
#![tactic(auto)]

ghost use Rattle.std.specs.Prelude.{◌≡◌};
ghost use Rattle.script.specs.Event.{access_number, access_kind, arity};

mod reading;
mod writing;

pub use reading::read_event;
pub use writing::write_event;

// What an access event asks for. `Other(n)` with n at most 2 means the kind of that number.
#[derive(Clone, Copy)]
pub enum AccessKind {
    Read,
    Write,
    Fetch,
    Other(u32),
}

// Arguments stand in a script's order: widths before addresses, addresses before values.
#[derive(Clone, Copy)]
pub enum Event {
    Read(u32, u32),
    Write(u32, u32, u32),
    Line(u32, u32),
    Nmi,
    Tick,
    Fault(u32, u32),
    Svc,
    Special(u32, u32),
    Entry,
    Return(u32),
    Access(AccessKind, u32, u32),
    Lost(u32),
    Skip(u32),
}

impl From<AccessKind> for u32 {
    ghost from_gives = { λ kind result. result ≡ access_number kind };

    #[tactic(auto, unfolding(crate::specs::Event::access_number))]
    fn from(kind: AccessKind) -> u32 {
        match kind {
            AccessKind::Read => 0,
            AccessKind::Write => 1,
            AccessKind::Fetch => 2,
            AccessKind::Other(n) => n,
        }
    }
}

impl From<u32> for AccessKind {
    ghost from_gives = { λ n result. result ≡ access_kind n };

    #[tactic(auto, unfolding(crate::specs::Event::access_kind))]
    fn from(n: u32) -> AccessKind {
        match n {
            0 => AccessKind::Read,
            1 => AccessKind::Write,
            2 => AccessKind::Fetch,
            _ => AccessKind::Other(n),
        }
    }
}

// How many arguments a kind has; a number that is no kind has none. An enum of the kinds would be `Event` without its arguments.
#[tactic(auto, unfolding(crate::specs::Event::arity))]
fn arity(kind: u32) -> u32
    ensures { result ≡ arity kind }
{
    match kind {
        1 => 2,
        2 => 3,
        3 => 2,
        6 => 2,
        8 => 2,
        10 => 1,
        11 => 3,
        12 => 1,
        13 => 1,
        _ => 0,
    }
}
