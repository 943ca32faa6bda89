// What an event or a log does to a state: the answer, and the state beside it. No code but these types: the rest stands in specs/ and proofs/.
#![tactic(auto)]

use event_logs::Stop;
use refusals::Refusal;
use state_rules::State;

// The job to run: its task's position, and its class.
#[derive(Clone, Copy, Debug, PartialEq, Eq)]
pub struct Chosen {
    pub position: usize,
    pub class: u32,
}

// The job to run, if one is open; or what refuses the event.
pub type Answer = Result<Option<Chosen>, Refusal>;

#[derive(Clone, Copy, Debug, PartialEq, Eq)]
pub struct Applied {
    pub answer: Answer,
    pub state: State,
}

// What a log does: the last answer, the state after it, and what ended the reading.
#[derive(Clone, Copy, Debug, PartialEq, Eq)]
pub struct Ran {
    pub answer: Answer,
    pub state: State,
    pub ending: Result<(), Stop>,
}
