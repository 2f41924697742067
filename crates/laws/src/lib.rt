// Shared definitions and laws: the crate has no code of its own.
#![tactic(auto)]
