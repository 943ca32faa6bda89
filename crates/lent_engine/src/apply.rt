// Applying an event in place, over a lent row and a clock: no copy of the row is made, and a refused event stores nothing.
ghost use Rattle.std.specs.Prelude.{◌≡◌, ◌<◌, length, Ok};
ghost use Rattle.apply_events.specs.Answer.{as_told, as_applied};
ghost use Rattle.apply_events.specs.Apply.{applied};
ghost use Rattle.apply_ruling.specs.Answer.{as_ruling};
ghost use Rattle.lent_records.specs.Row.{state_of};
ghost use Rattle.lent_answers.specs.Turns.{ruled_row, ruled_on, settled_row, row_answer};

use apply_events::{Applied, Chosen};
use apply_ruling::judging::rule;
use event_reading::Event;
use lent_answers::Turn;
use lent_answers::steps::{seat_of, told_of};
use lent_records::choice::choose_in;
use lent_records::expiry::expire_all_in;
use lent_records::sound::is_sound_in;
use refusals::Refusal;
use state_choice::place;
use state_rules::State;
use table_rules::PLACES;
use task_records::Record;

// 15 before all, then the ruling on the event's own task.
#[tactic(auto, using(lent_answers::proofs::Turns::holds_some, apply_ruling::proofs::Seats::seat_below))]
fn rule_in(row: &[Record], clock: u64, event: Event) -> Result<Record, Refusal>
    ensures { as_ruling (ruled_on row.now clock event) result ≡ ruled_row row.now clock event }
{
    if !is_sound_in(row, clock) {
        return Err(Refusal::NotSound);
    }
    let at = seat_of(event, row.len());
    rule(clock, row.len(), row[at], event)
}

// The event is accepted: its task's record is stored, each late record is closed where it stands, and the choice over the row is told.
fn settle_in(row: &mut [Record], event: Event, after: Record) -> Option<Chosen>
    requires { 0 < length row.old }
    ensures { (as_told (Ok result) ≡ row_answer row.new)
        × (row.new ≡ settled_row row.old event after) }
{
    let at = seat_of(event, row.len());
    row[at] = after;
    expire_all_in(row, event.time);
    let best = choose_in(row);
    told_of(best, row[place(best)])
}

pub fn apply_in(row: &mut [Record], clock: u64, event: Event) -> Turn
    ensures { (as_told result.answer ≡ (applied (state_of row.old clock) event).answer)
        × ((result.clock ≡ (applied (state_of row.old clock) event).state.clock)
        × (row.new ≡ (applied (state_of row.old clock) event).state.records)) }
{
    match rule_in(row, clock, event) {
        Ok(after) => Turn::accepted(Ok(settle_in(row, event, after)), event),
        Err(refusal) => Turn::refused(refusal, clock),
    }
}

// The same by value: its contract is the engine's own. A state that counts more than 16 tasks is not sound. What lies behind the tasks stays.
#[tactic(auto, using(crate::proofs::Fronts::over_most))]
pub fn apply_of(state: State, event: Event) -> Applied
    ensures { as_applied result ≡ applied state event }
{
    if PLACES < state.count {
        return Applied {
            answer: Err(Refusal::NotSound),
            state,
        };
    }
    let mut records = state.records;
    let turn = apply_in(&mut records[..state.count], state.clock, event);
    turn.placed(state.count, records)
}
