// The turbo code internal interleaver of clause 5.1.3.2.3.
#![tactic(auto)]

pub mod block;
mod fours;
pub mod table;
