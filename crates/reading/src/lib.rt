// The call Read of 01, on rooms of either form.
#![tactic(auto)]

mod calls;
mod room;

pub use calls::{read, read_packed};
