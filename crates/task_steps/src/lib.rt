// One task's steps, by value: a record before any job, a job that expires or opens, the rank of an open job, and the event of its own task.
#![tactic(auto)]

pub mod opening;
pub mod own;
pub mod rank;
