// The choice, job by job: the open one that is least by class, then by D, then by table position.
#![tactic(auto)]

ghost use Rattle.std.specs.Prelude.{◌≡◌};
ghost use Rattle.state_choice.specs.Best.{as_best};
ghost use Rattle.state_choice.specs.Choice.{wins, better};

use task_records::Record;
use task_steps::rank::key;

// The least open job so far: its rank, and its position.
#[derive(Clone, Copy, Debug, PartialEq, Eq)]
pub struct Best {
    pub key: u64,
    pub at: usize,
}

fn wins_over(best: Option<Best>, live: bool, key: u64) -> bool
    ensures { result ≡ wins (as_best best) live key }
{
    live && best.is_none_or(|b| key < b.key)
}

// The better of the best so far and the job at the next position; a tie stays with the earlier one.
pub fn better_of(best: Option<Best>, record: Record, at: usize) -> Option<Best>
    ensures { as_best result ≡ better (as_best best) «record» at }
{
    let rank = key(record);
    if wins_over(best, record.live, rank) {
        return Some(Best { key: rank, at });
    }
    best
}

// Where the best job's task stands; the first place where there is none.
pub fn place(best: Option<Best>) -> usize
    ensures { result ≡ (as_best best).at }
{
    best.map_or(0, |b| b.at)
}
