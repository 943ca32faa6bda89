// The task table and its rules.
#![tactic(auto)]

pub mod rules;

ghost use Rattle.std.specs.Prelude.{◌++◌, Some, codes};
ghost use Rattle.std.specs.Fmt.{decimal};
ghost use Rattle.refusals.specs.Numbers.{number_of};

use refusals::Refusal;
use std::error::Error;
use std::fmt;

// The most tasks of a table.
pub const MOST_TASKS: usize = 16;

// The places of a table and of a state, with a task or without.
pub const PLACES: usize = 16;

// The longest T, in ticks.
pub const LONGEST_T: u32 = 1000000;

// The widest window, in jobs.
pub const WIDEST_K: u8 = 64;

// C, D and T in ticks; at most m misses in any K jobs in a row.
#[derive(Clone, Copy, Debug, Default, PartialEq, Eq)]
pub struct Task {
    pub c: u32,
    pub d: u32,
    pub t: u32,
    pub m: u8,
    pub k: u8,
}

#[derive(Clone, Copy, Debug, PartialEq, Eq)]
pub struct Table {
    pub count: usize,
    pub tasks: [Task; PLACES],
}

// Why a table is refused, and the position of the task that breaks the rule; 0 where no task does.
#[derive(Clone, Copy, Debug, PartialEq, Eq)]
pub struct Refused {
    pub refusal: Refusal,
    pub position: usize,
}

// As the listing tells it: the refusal's number, and the position.
impl fmt::Display for Refused {
    ghost output = { λ r. Some (decimal (number_of r.refusal) ++ (codes " at " ++ decimal r.position)) };

    fn fmt<W: fmt::Write>(&self, f: &mut fmt::Formatter<W>) -> fmt::Result {
        write!(f, "{} at {}", self.refusal, self.position)
    }
}

impl Error for Refused {}
