// The three demands as theorems, a page for each: the crate has no code of its own.
#![tactic(auto)]
