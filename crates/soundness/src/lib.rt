// The test of refusal 16 on the arrays of a state: flags, priority bytes and the nest, of any chip.
#![tactic(auto)]

mod bytes;
mod flags;
mod nest;

pub use bytes::bytes_sound;
pub use flags::sound_flags;
pub use nest::sound_nest;
