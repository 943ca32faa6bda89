// The lines of a log: one per event, and the one that says where the reading stopped.
#![tactic(auto)]

ghost use Rattle.std.specs.Prelude.{◌≡◌};
ghost use Rattle.event_logs.specs.Log.{events_of};
ghost use Rattle.event_logs.specs.Ending.{ending_of};
ghost use Rattle.event_logs.specs.Stops.{as_ending};
ghost use Rattle.text_writing.specs.Puts.{Puts};
ghost use Rattle.apply_events.specs.Log.{state_after};
ghost use Rattle.listing_text.specs.LogLines.{event_lines, stop_by};

use apply_engine::apply::apply;
use event_logs::{Stop, ended};
use event_reading::{EVENT_SIZE, read};
use state_rules::State;
use text_writing::Sheet;

// The state after the events, and what ended the reading.
#[derive(Clone, Copy, Debug, PartialEq, Eq)]
pub struct Ended {
    pub state: State,
    pub ending: Result<(), Stop>,
}

// One line per event, the state after them, and what ended the reading.
pub fn each_event(sheet: &mut Sheet<'_>, first: State, log: &[u8]) -> Ended
    ensures { (Puts sheet.old sheet.new (event_lines 1 first (events_of log.now)))
        × ((result.state ≡ state_after first (events_of log.now)) × (as_ending result.ending ≡ ending_of log.now)) }
{
    let mut state = first;
    let mut i: usize = 0;
    let mut from: usize = 0;
    loop {
        let got = read(&log[from..]);
        let Ok(Some(event)) = got else {
            return Ended {
                state,
                ending: ended(got, from),
            };
        };
        let done = apply(state, event);
        state = done.state;
        i += 1;
        listing_event_line::event(sheet, i, done.answer);
        from += EVENT_SIZE;
    }
}

// The line that says where the reading stopped, if a record did not read.
#[tactic(auto, using(text_writing::proofs::Putting::none_put))]
pub fn stop(sheet: &mut Sheet<'_>, ending: Result<(), Stop>)
    ensures { Puts sheet.old sheet.new (stop_by (as_ending ending)) }
{
    if let Err(found) = ending {
        listing_refusal_line::stop(sheet, found.refusal.number(), found.offset);
    }
}
