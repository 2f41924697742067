// Demand 3 over every history: the crate has no code of its own.
#![tactic(auto)]
