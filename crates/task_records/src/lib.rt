// One task's record, by value, and what the closing of a job makes of it.
#![tactic(auto)]

pub mod closing;

use table_rules::Task;

// live: the last released job is open, with class as it opened. marks: the newest job in bit 0.
#[derive(Clone, Copy, Debug, PartialEq, Eq)]
pub struct Record {
    pub task: Task,
    pub level: i32,
    pub run: u32,
    pub live: bool,
    pub class: u32,
    pub last: u64,
    pub released: u64,
    pub met: u64,
    pub missed: u64,
    pub marks: u64,
    pub broken: u64,
}
