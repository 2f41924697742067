// The (32, O) code of clause 5.2.2.6.4: the control bits of a report, and the report that is nearest to received ones.
#![tactic(auto)]

mod block;
mod counts;
mod search;
mod table;

pub use block::control_bits;
pub use search::{Found, nearest};
