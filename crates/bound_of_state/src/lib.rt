// Bounds asked of a state: 15 before all, then what its table answers. A refusal leaves the lent cells as they were.
#![tactic(auto)]

ghost use Rattle.std.specs.Prelude.{◌≡◌, ◌≤◌, length};
ghost use Rattle.table_rules.specs.Limits.{place_count};
ghost use Rattle.table_rules.specs.Answers.{as_answer};
ghost use Rattle.bound_one.specs.Bound.{as_bound};
ghost use Rattle.bound_of_state.specs.Asked.{table_in, one_of_state, all_of_state, cells_of_state};

use refusals::Refusal;
use state_rules::State;
use state_rules::sound::is_sound;
use table_rules::{PLACES, Refused, Table, Task};

const NOT_SOUND: Refused = Refused {
    refusal: Refusal::NotSound,
    position: 0,
};

// The table that the state's tasks make, with zeros past the last one.
#[tactic(auto, unfolding(laws::specs::Stores::filled))]
fn table_of(state: State) -> Table
    requires { state.count ≤ place_count }
    ensures { result ≡ table_in state }
{
    let mut tasks = [Task::default(); PLACES];
    for (i, record) in state.records[..state.count].iter().enumerate() {
        tasks[i] = record.task;
    }
    Table {
        count: state.count,
        tasks,
    }
}

#[tactic(auto, using(crate::proofs::Accepted::few), unfolding(crate::specs::Asked::one_of_state))]
pub fn bound(state: State, k: usize) -> Result<u32, Refused>
    ensures { as_bound result ≡ one_of_state state k }
{
    if !is_sound(state) {
        return Err(NOT_SOUND);
    }
    bound_one::of_table::bound(table_of(state), k)
}

#[tactic(auto, using(crate::proofs::Accepted::few), unfolding(crate::specs::Asked::all_of_state, crate::specs::Asked::cells_of_state))]
pub fn all(state: State, out: &mut [u32]) -> Result<(), Refused>
    ensures { (as_answer result ≡ all_of_state state (length out.old)) × (out.new ≡ cells_of_state state out.old) }
{
    if !is_sound(state) {
        return Err(NOT_SOUND);
    }
    bound_all::of_table::all(table_of(state), out)
}
