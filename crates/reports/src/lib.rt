// Control reports with the data (02, E3): Build with a report ahead of the block, and the way back.
#![tactic(auto)]

mod building;
mod parting;
mod refused;

pub use building::build;
pub use parting::{data_part, part};

// What is sent with a report: a block of so many bits, Q_m, N_L, and a report of so many bits in so many control bits a layer.
#[derive(Clone, Copy)]
pub struct Layout {
    pub block: usize,
    pub modulation: usize,
    pub layers: usize,
    pub report: usize,
    pub control: usize,
}
