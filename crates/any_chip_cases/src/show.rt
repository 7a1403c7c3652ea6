// A line of output: the chip, a label, a colon, and what the case came to.
use any_chip::{Reply, State};
use rules::Setup;
use std::fmt;
use std::io::Result;

// What a line begins with: the chip's lines, how many bits of a priority byte are kept where it is not three, and a label.
#[derive(Clone, Copy)]
pub struct Case<'a> {
    pub setup: Setup,
    pub label: &'a str,
}

impl fmt::Display for Case<'_> {
    fn fmt<W: fmt::Write>(&self, f: &mut fmt::Formatter<W>) -> fmt::Result {
        let chip = self.setup.chip();
        write!(f, "{} lines", chip.lines)?;
        if chip.bits != 3 {
            write!(f, ", {} bits", chip.bits)?;
        }
        write!(f, ": {}:", self.label)
    }
}

// The refusal, the value, the vector address, the link value; the state goes on.
pub fn told(rt: &impl Print, label: &str, r: Reply) -> Result<State> {
    let setup = r.state.setup;
    let case = Case { setup, label };
    println!(rt;
        "{case} {} {} {:#010x} {:#010x}",
        r.refusal, r.value, r.vector, r.link
    )?;
    Ok(r.state)
}

pub fn judged(sound: bool) -> &'static str {
    if sound { "sound" } else { "not sound" }
}

// The top of the nest, the depth, the execution priority, and whether the state is sound.
pub fn looked(rt: &impl Print, label: &str, s: State) -> Result<()> {
    let case = Case {
        setup: s.setup,
        label,
    };
    let (top, depth, priority) = (s.top(), s.depth(), s.execution_priority());
    println!(rt; "{case} {top} {depth} {priority} {}", judged(s.is_sound()))
}
