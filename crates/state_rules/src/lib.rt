// The state of all tasks: fresh from a table, sound or not, and the choice it stands for.
#![tactic(auto)]

pub mod choice;
pub mod fresh;
pub mod sound;

use table_rules::PLACES;
use task_records::Record;

// The limit of time, in ticks.
pub const LIMIT: u64 = 1000000000000;

#[derive(Clone, Copy, Debug, PartialEq, Eq)]
pub struct State {
    pub count: usize,
    pub clock: u64,
    pub records: [Record; PLACES],
}
