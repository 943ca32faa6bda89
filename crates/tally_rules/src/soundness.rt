// Whether a tally is sound: every number of it within its limits, and the jobs met those of its cells.
ghost use Rattle.std.specs.Prelude.{◌≡◌};
ghost use Rattle.tally_rules.specs.Sound.{span_holds, cells_hold, tally_holds};

use super::{MOST_TALLIED, Span, Tally};
use table_rules::LONGEST_T;

// What the least and the most may be beside D, the jobs met and the sum.
fn span_holds(tally: Tally) -> bool
    ensures { result ≡ span_holds tally.span tally.d tally.met tally.sum }
{
    match tally.span {
        None => tally.met == 0 && tally.sum == 0,
        Some(Span { least, most }) => tally.met != 0 && most <= tally.d && least <= most,
    }
}

// No cell is past its limit, and together they are the jobs met.
fn cells_hold(tally: Tally) -> bool
    ensures { result ≡ cells_hold tally.cells tally.met }
{
    let mut total: u64 = 0;
    for cell in tally.cells {
        if MOST_TALLIED < cell {
            return false;
        }
        total += cell;
    }
    total == tally.met
}

#[tactic(auto, unfolding(crate::specs::Sound::tally_holds))]
pub fn is_sound(tally: Tally) -> bool
    ensures { result ≡ tally_holds tally }
{
    1 <= tally.d
        && tally.d <= LONGEST_T
        && tally.sum <= MOST_TALLIED
        && span_holds(tally)
        && cells_hold(tally)
}
