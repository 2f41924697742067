// The call Build of 01, for a block in one slice or in two, and of 02 for a downlink.
#![tactic(auto)]

mod block;
mod call;

pub use call::{build, build_down, build_two};
