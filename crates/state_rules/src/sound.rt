// Whether a state is sound: the rules' clauses, over the tasks that it counts.
ghost use Rattle.std.specs.Prelude.{◌≡◌};
ghost use Rattle.std.specs.List.{list_all};
ghost use Rattle.task_soundness.specs.Sound.{sound_holds};
ghost use Rattle.state_rules.specs.Sound.{state_holds};

use super::{LIMIT, State};
use table_rules::MOST_TASKS;
use task_records::Record;
use task_soundness::sound;

fn all_sound(records: &[Record], clock: u64) -> bool
    ensures { result ≡ list_all (λ r. sound_holds r clock) records.now }
{
    records.iter().all(|record| sound(*record, clock))
}

#[tactic(auto, unfolding(crate::specs::Sound::state_holds))]
pub fn is_sound(state: State) -> bool
    ensures { result ≡ state_holds state }
{
    let count = state.count;
    1 <= count
        && count <= MOST_TASKS
        && state.clock <= LIMIT
        && all_sound(&state.records[..count], state.clock)
}
