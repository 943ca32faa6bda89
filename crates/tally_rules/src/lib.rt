// A tally of responses: fresh, whether it is sound, and one response more.
#![tactic(auto)]

pub mod adding;
pub mod soundness;

ghost use Rattle.std.specs.Prelude.{◌≡◌};
ghost use Rattle.tally_rules.specs.Tally.{fresh_tally};

use table_rules::PLACES;

// The cells of a tally: each is an even share of the ticks from 0 to D.
pub const CELLS: usize = 128;

// The largest sum of responses, and the largest count of a cell.
pub const MOST_TALLIED: u64 = 1000000000000000;

// The least and the most response.
#[derive(Clone, Copy, Debug, PartialEq, Eq)]
pub struct Span {
    pub least: u32,
    pub most: u32,
}

// The responses of one task's met jobs: D of the task, how many fell into each cell, how many there were, the least and the most, and their sum.
#[derive(Clone, Copy, Debug, PartialEq, Eq)]
pub struct Tally {
    pub d: u32,
    pub cells: [u64; CELLS],
    pub met: u64,
    // While nothing was met there is none, so that none can be read as 0.
    pub span: Option<Span>,
    pub sum: u64,
}

// The tallies of a state's tasks, each at its task's place.
#[derive(Clone, Copy, Debug, PartialEq, Eq)]
pub struct Tallies {
    pub row: [Tally; PLACES],
}

// Of a task with this D, while nothing was met.
pub fn fresh(d: u32) -> Tally
    ensures { result ≡ fresh_tally d }
{
    Tally {
        d,
        cells: [0; CELLS],
        met: 0,
        span: None,
        sum: 0,
    }
}
