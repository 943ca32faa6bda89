// A fresh state of a table: the table's refusals first, and zeros past the last task.
ghost use Rattle.std.specs.Prelude.{◌≡◌, ◌≤◌};
ghost use Rattle.table_rules.specs.Limits.{place_count};
ghost use Rattle.state_rules.specs.State.{fresh_state, as_started, started};

use super::State;
use table_rules::rules::judge;
use table_rules::{PLACES, Refused, Table};
use task_steps::opening::{fresh_of, no_record};

#[tactic(auto, unfolding(laws::specs::Stores::filled))]
fn filled_by(table: Table) -> State
    requires { table.count ≤ place_count }
    ensures { result ≡ fresh_state table }
{
    let mut records = [no_record(); PLACES];
    for i in 0..table.count {
        records[i] = fresh_of(table.tasks[i]);
    }
    State {
        count: table.count,
        clock: 0,
        records,
    }
}

#[tactic(auto, unfolding(crate::specs::State::started))]
pub fn start(table: Table) -> Result<State, Refused>
    ensures { as_started result ≡ started table }
{
    judge(table)?;
    Ok(filled_by(table))
}

// The state that is started: a table that is refused starts a state of no tasks.
pub fn state_in(started: Result<State, Refused>) -> State
    ensures { result ≡ (as_started started).state }
{
    started.unwrap_or(State {
        count: 0,
        clock: 0,
        records: [no_record(); PLACES],
    })
}
