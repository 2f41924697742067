// Rooms in either form, and histories that change it: the crate has no code of its own.
#![tactic(auto)]
