// The calls on a state by value, one for each kind of event: each hands back its answer with the next state.
#![tactic(auto)]

ghost use Rattle.std.specs.Prelude.{◌≡◌};
ghost use Rattle.script.specs.declared.Event.{Event};
ghost use Rattle.script.specs.declared.Event.TheVariants.{Read, Write, Line, Nmi, Tick, Fault, Svc, Special, Entry, Return, Access, Lost, Skip};
ghost use Rattle.script.specs.declared.AccessKind.TheVariants.{Other};
ghost use Rattle.calls.specs.declared.Reply.{Reply};

use script::{AccessKind, Event};

// An answer: the refusal or 0, the value, the vector address and link value of an entry, and the next state. In numbers, of which
// `CodeDemand1` and the other laws of `model` and `any_chip` speak.
#[derive(Clone, Copy, PartialEq, Eq, Debug)]
pub struct Reply<S> {
    pub refusal: u32,
    pub value: u32,
    pub vector: u32,
    pub link: u32,
    pub state: S,
}

pub trait Calls: Copy {
    // What the rules reply.
    ghost replied: { Self → Event → Reply Self };

    fn step(self, event: Event) -> Reply<Self>
        ensures { result ≡ replied self event };

    fn read(self, width: u32, address: u32) -> Reply<Self>
        ensures { result ≡ replied self (Read width address) }
    {
        self.step(Event::Read(width, address))
    }

    fn write(self, width: u32, address: u32, value: u32) -> Reply<Self>
        ensures { result ≡ replied self (Write width address value) }
    {
        self.step(Event::Write(width, address, value))
    }

    fn line(self, line: u32, level: u32) -> Reply<Self>
        ensures { result ≡ replied self (Line line level) }
    {
        self.step(Event::Line(line, level))
    }

    fn nmi(self) -> Reply<Self>
        ensures { result ≡ replied self Nmi }
    {
        self.step(Event::Nmi)
    }

    fn tick(self) -> Reply<Self>
        ensures { result ≡ replied self Tick }
    {
        self.step(Event::Tick)
    }

    fn fault(self, bit: u32, address: u32) -> Reply<Self>
        ensures { result ≡ replied self (Fault bit address) }
    {
        self.step(Event::Fault(bit, address))
    }

    fn svc(self) -> Reply<Self>
        ensures { result ≡ replied self Svc }
    {
        self.step(Event::Svc)
    }

    // Any number for the register: above 4 it is refused by 6.
    fn special(self, which: u32, value: u32) -> Reply<Self>
        ensures { result ≡ replied self (Special which value) }
    {
        self.step(Event::Special(which, value))
    }

    fn entry(self) -> Reply<Self>
        ensures { result ≡ replied self Entry }
    {
        self.step(Event::Entry)
    }

    fn return_(self, value: u32) -> Reply<Self>
        ensures { result ≡ replied self (Return value) }
    {
        self.step(Event::Return(value))
    }

    // Any number for the kind: above 2 it is refused by 6.
    fn access(self, kind: u32, width: u32, address: u32) -> Reply<Self>
        ensures { result ≡ replied self (Access (Other kind) width address) }
    {
        self.step(Event::Access(AccessKind::Other(kind), width, address))
    }

    // How many rises of a line found it pending, 65,535 where there were more.
    fn lost(self, line: u32) -> Reply<Self>
        ensures { result ≡ replied self (Lost line) }
    {
        self.step(Event::Lost(line))
    }

    // What so many calls of `tick` leave, in the time of one; 1 if one of them would answer 1.
    fn skip(self, count: u32) -> Reply<Self>
        ensures { result ≡ replied self (Skip count) }
    {
        self.step(Event::Skip(count))
    }
}
