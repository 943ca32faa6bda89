// The choice is made over a lent row of task records, of any length.
ghost use Rattle.std.specs.Prelude.{◌≡◌, length};
ghost use Rattle.table_rules.specs.Limits.{place_count};
ghost use Rattle.state_choice.specs.Best.{as_best};
ghost use Rattle.state_choice.specs.Choice.{best_to};

use state_choice::{Best, better_of};
use table_rules::PLACES;
use task_records::Record;

// No job is chosen where none is open.
#[tactic(auto, unfolding(state_choice::specs::Choice::best_to))]
pub fn choose_in(row: &[Record]) -> Option<Best>
    ensures { as_best result ≡ best_to row.now (length row.now) }
{
    let mut best = None;
    for (at, record) in row.iter().enumerate() {
        best = better_of(best, *record, at);
    }
    best
}

// The same over an array by value, which is lent to it.
pub fn choose_of(records: [Record; PLACES]) -> Option<Best>
    ensures { as_best result ≡ best_to records place_count }
{
    choose_in(&records)
}
