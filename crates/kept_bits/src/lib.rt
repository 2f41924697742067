// What the circle of one code block keeps: the bits of its streams, and how many data places lack one.
#![tactic(auto)]

mod circle;

pub use circle::{count_missing, lacking_of, read_stream, three_streams};
