// Bit collection, selection and transmission of clause 5.1.4.1.2: the bits that a redundancy version sends of a code block's three streams.
#![tactic(auto)]

mod matcher;

pub use matcher::{rate_match, turn_after_turn};
