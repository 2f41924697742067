// Downlink control messages, clause 5.3.3 from the attached check onward: the message of a payload for a terminal, and whose a received one is.
#![tactic(auto)]

mod attachment;
mod calls;
mod coding;
mod matching;

pub use calls::{build, whose};
