// The statements of the public calls side by side, and that each admits a single outcome: the crate has no code of its own.
#![tactic(auto)]
