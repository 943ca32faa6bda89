// The bounds of all tasks beside the answer, which says whether each has one.
#![tactic(auto)]

pub mod of_table;
