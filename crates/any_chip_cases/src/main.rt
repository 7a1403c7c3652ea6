// Worked cases of document 02, E1, E4, E5 and E7, run by call on the state of any chip, a labelled line for each: what must be printed was worked out
// from documents 01 and 02. A case is a row of numbers, handed to a function that makes its state.
#![tactic(auto)]

mod idle;
mod lost_counts;
mod nesting;
mod registers;
mod show;
mod unsound_states;
mod widths;

use output::Tolerant;
use rules::Part;

fn main(rt: HostRuntime) -> std::io::Result<()> {
    let rt = Tolerant(rt);
    registers::lines(&rt)?;
    registers::entries(&rt)?;
    registers::kept_bits(&rt)?;
    registers::triggers(&rt)?;
    unsound_states::cases(&rt, Part::Lines55)?;
    unsound_states::cases(&rt, Part::Lines240)?;
    nesting::nest(&rt, Part::Lines240)?;
    nesting::nest(&rt, Part::Lines55)?;
    lost_counts::lost(&rt, Part::Lines55, 54, 55)?;
    lost_counts::lost(&rt, Part::Lines240, 239, 240)?;
    idle::skips(&rt, Part::Lines55)?;
    idle::skips(&rt, Part::Lines240)?;
    widths::kept(&rt)?;
    widths::refused(&rt)?;
    Ok(())
}
