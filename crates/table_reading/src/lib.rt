// Table bytes, 16 a task, and what they read as: one record, then the whole table.
#![tactic(auto)]

pub mod record;
pub mod table;

// The bytes of a table record.
pub const TASK_SIZE: usize = 16;
