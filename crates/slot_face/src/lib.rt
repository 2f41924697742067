// The face to C of the slots: what include/zemrukste.h declares of them, thin over the proved libraries. A C program links `slot_face_c`, which is put into one archive with `face_c`.
#![tactic(auto)]

mod calls;
mod packed;

pub use calls::{
    zemrukste_close, zemrukste_new, zemrukste_open, zemrukste_open_down, zemrukste_read,
    zemrukste_receive, zemrukste_streams,
};
pub use packed::{
    zemrukste_open_down_packed, zemrukste_open_packed, zemrukste_read_packed,
    zemrukste_receive_packed, zemrukste_streams_packed,
};
