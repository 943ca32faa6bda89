// The report over a log: its responses in the tallies of its tasks.
#![tactic(auto)]

mod beside;
pub mod fresh;
pub mod report;
