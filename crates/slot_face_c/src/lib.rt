// What a C program links of the face of the slots: each export calls the function of its name in `slot_face`, and its clauses are the same.
#![tactic(auto)]

mod calls;
mod packed;
