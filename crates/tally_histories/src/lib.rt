// The tallies of a log's responses: what a report answers. No code but this type: the rest stands in specs/ and proofs/.
#![tactic(auto)]

use event_logs::Stop;
use state_rules::State;
use tally_rules::Tallies;

// The state and the tallies after all events that read, and what ended the reading.
#[derive(Clone, Copy, Debug, PartialEq, Eq)]
pub struct Reported {
    pub state: State,
    pub tallies: Tallies,
    pub ending: Result<(), Stop>,
}
