// Acting on a sound state, in place: an event copies nothing but its own task's record.
ghost use Rattle.std.specs.Prelude.{◌≡◌, ◌≤◌};
ghost use Rattle.table_rules.specs.Limits.{place_count};
ghost use Rattle.state_choice.specs.Best.{as_best};
ghost use Rattle.state_rules.specs.Choice.{chosen};
ghost use Rattle.state_rules.specs.Sound.{StateSound};
ghost use Rattle.apply_events.specs.Answer.{as_told};
ghost use Rattle.apply_events.specs.Apply.{moved, applied};
ghost use Rattle.apply_events.specs.Steps.{expired_all};

use super::telling::told;
use apply_events::Answer;
use apply_ruling::judging::{rule, seat};
use event_reading::Event;
use state_choice::{Best, better_of, place};
use state_rules::State;
use task_records::closing::close;
use task_steps::opening::is_late;

// Step 1 on every task, and the best of the jobs that it leaves open.
fn expire_all(state: &mut State, time: u64) -> Option<Best>
    requires { state.old.count ≤ place_count }
    ensures state { state.new ≡ moved state.old state.old.clock (expired_all state.old time) }
    ensures best { as_best result ≡ chosen state.new }
{
    let mut best = None;
    for i in 0..state.count {
        if is_late(state.records[i], time) {
            state.records[i] = close(state.records[i], false);
        }
        best = better_of(best, state.records[i], i);
    }
    best
}

// One event. Its own record is stored first: it is not late, so that step 1 leaves it. A refused event leaves the state as it stands.
pub fn act(state: &mut State, event: Event) -> Answer
    requires { StateSound state.old }
    ensures answer { as_told result ≡ (applied state.old event).answer }
    ensures state { state.new ≡ (applied state.old event).state }
{
    let at = seat(event.task, state.count);
    let after = rule(state.clock, state.count, state.records[at], event)?;
    state.clock = event.time;
    state.records[at] = after;
    let best = expire_all(state, event.time);
    Ok(told(best, state.records[place(best)].class))
}
