// How far the (32, O) code carries a report: the crate has no code of its own.
#![tactic(auto)]
