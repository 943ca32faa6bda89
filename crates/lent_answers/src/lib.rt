// What an event comes to over a lent row, on values: the steps that the engine in place is made of.
#![tactic(auto)]

ghost use Rattle.std.specs.Prelude.{◌≡◌};
ghost use Rattle.refusals.specs.Numbers.{number_of};
ghost use Rattle.apply_events.specs.Answer.{as_told, as_applied};
ghost use Rattle.apply_ruling.specs.Ruling.{kept};
ghost use Rattle.task_steps.specs.Opening.{no_record};
ghost use Rattle.lent_answers.specs.Turn.{as_turn};
ghost use Rattle.lent_answers.specs.Turns.{accepted_turn, refused_turn, placed_by};

pub mod steps;

use apply_events::{Answer, Applied};
use event_reading::Event;
use refusals::Refusal;
use state_rules::State;
use table_rules::PLACES;
use task_records::Record;

// What an event comes to over a lent row: the answer, and the clock afterwards.
#[derive(Clone, Copy, Debug, PartialEq, Eq)]
pub struct Turn {
    pub answer: Answer,
    pub clock: u64,
}

impl Turn {
    // The clock becomes the event's time.
    pub fn accepted(answer: Answer, event: Event) -> Turn
        ensures { as_turn result ≡ accepted_turn (as_told answer) event }
    {
        Turn {
            answer,
            clock: event.time,
        }
    }

    // The clock stays.
    pub fn refused(refusal: Refusal, clock: u64) -> Turn
        ensures { as_turn result ≡ refused_turn (kept (number_of refusal) no_record) clock }
    {
        Turn {
            answer: Err(refusal),
            clock,
        }
    }

    // The row behind the count comes back to its state.
    pub fn placed(self, count: usize, records: [Record; PLACES]) -> Applied
        ensures { as_applied result ≡ placed_by (as_turn self) count records }
    {
        Applied {
            answer: self.answer,
            state: State {
                count,
                clock: self.clock,
                records,
            },
        }
    }
}
