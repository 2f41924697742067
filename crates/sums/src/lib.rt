// 01's small sums about the definitions: the crate has no code of its own.
#![tactic(auto)]
