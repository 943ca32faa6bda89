// The demand of the response bound: the tasks above a task, and what they ask for in a stretch of ticks.
#![tactic(auto)]

pub mod above;

use table_rules::PLACES;

// What a task above asks for: its cost, once in each spacing.
#[derive(Clone, Copy, Debug, PartialEq, Eq)]
pub struct Asked {
    pub cost: u32,
    pub spacing: u32,
}

// All that the search goes by: the task's own cost, and what each of the first `count` tasks above it asks for.
#[derive(Clone, Copy, Debug, PartialEq, Eq)]
pub struct Load {
    pub own: u32,
    pub count: usize,
    pub above: [Asked; PLACES],
}
