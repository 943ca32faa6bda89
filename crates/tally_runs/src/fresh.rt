// The tallies of a state's tasks while nothing was met.
ghost use Rattle.std.specs.Prelude.{◌≡◌};
ghost use Rattle.tally_histories.specs.Sound.{fresh_tallies};

use state_rules::State;
use table_rules::PLACES;
use tally_rules::{Tallies, fresh};

pub fn fresh_of(state: State) -> Tallies
    ensures { result ≡ fresh_tallies state }
{
    let mut row = [fresh(0); PLACES];
    for i in 0..PLACES {
        row[i] = fresh(state.records[i].task.d);
    }
    Tallies { row }
}
