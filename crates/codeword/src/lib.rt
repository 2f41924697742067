// The codeword of a transport block: clauses 5.1.4.1.2 (shares, the soft buffer) and 5.1.5, and what 01 asks of a grant.
#![tactic(auto)]

mod allocation;
mod buffer;

pub use allocation::{bad_allocation, bad_bits, bad_symbol, share_of};
pub use buffer::share_for;

// What a terminal is told to send, or is to be sent: Q_m, N_L, the redundancy version and G.
#[derive(Clone, Copy)]
pub struct Grant {
    pub modulation: usize,
    pub layers: usize,
    pub version: usize,
    pub bits: usize,
}

// What is known of the receiver of a downlink: its release, 8 or 11; K_MIMO; its processes; the bits of its soft buffer; and how many layers it
// supports.
#[derive(Clone, Copy)]
pub struct Receiver {
    pub release: usize,
    pub mimo: usize,
    pub processes: usize,
    pub soft: usize,
    pub layers: usize,
}
