// The events of the bench: three rules by which events are made one by one, in place.
#![tactic(auto)]

pub mod made;
pub mod makers;

// What a rule keeps in numbers: n tasks, the rule, the spread of times, the number of chance x, and the time.
#[derive(Clone, Copy)]
pub struct Maker {
    pub tasks: u32,
    pub rule: u32,
    pub spread: u32,
    pub x: u32,
    pub time: u64,
}

// What rule 1 keeps of a task: the deadline of its open job (0: none is open), when the next job may be released, and how many were.
#[derive(Clone, Copy, Debug, Default, PartialEq, Eq)]
pub struct Kept {
    pub due: u64,
    pub free: u64,
    pub jobs: u64,
}
