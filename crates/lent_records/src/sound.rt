// Whether a lent row and a clock are a sound state.
ghost use Rattle.std.specs.Prelude.{◌≡◌};
ghost use Rattle.state_rules.specs.Sound.{state_holds};
ghost use Rattle.lent_records.specs.Row.{state_of, admitted};

use state_rules::LIMIT;
use table_rules::MOST_TASKS;
use task_records::Record;
use task_soundness::sound;

// What is asked of a state before any record is looked at.
fn admits(count: usize, clock: u64) -> bool
    ensures { result ≡ admitted count clock }
{
    (1..=MOST_TASKS).contains(&count) && clock <= LIMIT
}

pub fn is_sound_in(row: &[Record], clock: u64) -> bool
    ensures { result ≡ state_holds (state_of row.now clock) }
{
    admits(row.len(), clock) && row.iter().all(|&record| sound(record, clock))
}
