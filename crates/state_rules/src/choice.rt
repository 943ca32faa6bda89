// The choice of a state: over the tasks that it counts.
ghost use Rattle.std.specs.Prelude.{◌≡◌, min};
ghost use Rattle.table_rules.specs.Limits.{place_count};
ghost use Rattle.state_choice.specs.Best.{as_best};
ghost use Rattle.state_rules.specs.Choice.{chosen};

use super::State;
use state_choice::{Best, better_of};
use table_rules::PLACES;

// A state has no more places, nor has a table, whatever it counts.
pub fn places(count: usize) -> usize
    ensures { result ≡ min count place_count }
{
    count.min(PLACES)
}

#[tactic(auto, unfolding(state_choice::specs::Choice::best_to))]
pub fn choose(state: State) -> Option<Best>
    ensures { as_best result ≡ chosen state }
{
    let mut best = None;
    for i in 0..places(state.count) {
        best = better_of(best, state.records[i], i);
    }
    best
}
