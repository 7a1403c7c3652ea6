// The refusals of documents 01 and 02.
#![tactic(auto)]

ghost use Rattle.std.specs.Prelude.{◌≡◌};
ghost use Rattle.refusals.specs.Refusals.{number_of};

// Why a call, a script or a setup is refused, in the order of their numbers. 18 is that of a vendor's log.
#[derive(Clone, Copy, PartialEq, Eq, Debug)]
pub enum Refusal {
    // A width that is not 1, 2 or 4; a fetch's that is not 2.
    Width,
    // An address that is no multiple of the width.
    Unaligned,
    // A register access without privilege.
    Unprivileged,
    // No register of the chip at this address.
    NoRegister,
    // A width that the register there does not take.
    RegisterWidth,
    // A line, level, special register or kind of access that does not exist.
    OutOfRange,
    // No listed fault bit.
    FaultBit,
    // Nothing to enter.
    NothingToEnter,
    // A return value that is not among the three, or wrong for the number nested.
    ReturnValue,
    // A fault or SVC at execution priority -1 or lower.
    Lockup,
    // A frame that is not wholly in the window, or an SP that cannot be.
    Frame,
    // A window that is too long, or not where a window may be.
    Window,
    // A script's number that is cut short, too large or not in its shortest form.
    Number,
    // A script's event of an unknown kind.
    Kind,
    // A script that is too long, or a written event that has no room.
    Length,
    // A state that is not sound.
    Unsound,
    // A setup that keeps fewer than 3 bits of a priority byte, or more than 8.
    Setup,
    // An access verdict on a chip without a guard.
    NoGuard,
}

impl From<Refusal> for u32 {
    ghost from_gives = { λ refusal result. result ≡ number_of refusal };

    fn from(refusal: Refusal) -> u32 {
        match refusal {
            Refusal::Width => 1,
            Refusal::Unaligned => 2,
            Refusal::Unprivileged => 3,
            Refusal::NoRegister => 4,
            Refusal::RegisterWidth => 5,
            Refusal::OutOfRange => 6,
            Refusal::FaultBit => 7,
            Refusal::NothingToEnter => 8,
            Refusal::ReturnValue => 9,
            Refusal::Lockup => 10,
            Refusal::Frame => 11,
            Refusal::Window => 12,
            Refusal::Number => 13,
            Refusal::Kind => 14,
            Refusal::Length => 15,
            Refusal::Unsound => 16,
            Refusal::Setup => 17,
            Refusal::NoGuard => 19,
        }
    }
}
