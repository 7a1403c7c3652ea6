// What every chip's NVIC shares, over slices: priority bytes, flags and the nest.
#![tactic(auto)]

pub mod bytes;
pub mod flags;
pub mod lists;
pub mod nest;
