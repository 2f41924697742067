// The calls New, Open for either link, and Close, and what every call on slots asks of a state first.
#![tactic(auto)]

mod opening;
pub mod states;

pub use opening::{close, is_done, new, open, open_down, open_down_outcome, open_outcome};
use refusals::Refusal;
use slots::Head;

// What a state and a store say to a call by a slot's owner: the slot's head, or the first refusal of 13, 5 (store), 6, 8 and 9; and the head whichever it is, a
// closed one where there is no such slot.
#[derive(Clone, Copy)]
pub struct Owner {
    pub admitted: Result<Head, Refusal>,
    pub head: Head,
}
