// An event against its own task, on values: whether it is refused, and the task's record afterwards.
#![tactic(auto)]

pub mod judging;
