// The numbered refusals of the rules, by name.
#![tactic(auto)]

ghost use Rattle.std.specs.Prelude.{◌≡◌, Some};
ghost use Rattle.std.specs.Fmt.{decimal};
ghost use Rattle.refusals.specs.Numbers.{number_of};

use std::error::Error;
use std::fmt;

// Each is one row of the rules' table of refusals, with that row's number.
#[derive(Clone, Copy, Debug, PartialEq, Eq)]
pub enum Refusal {
    // The table's bytes or its count of tasks.
    TaskCount = 1,
    // The mark of a table record.
    TaskMark = 2,
    // C, D or T.
    TaskTimes = 3,
    // m or K.
    TaskMisses = 4,
    // Too few bytes for an event record.
    EventSize = 5,
    // The mark of an event record.
    EventMark = 6,
    // A kind that no event has.
    EventKind = 7,
    // A field that has to be 0.
    EventFields = 8,
    // A time past the limit, or before the clock.
    EventTime = 9,
    // No task at this position.
    NoTask = 10,
    // A release too soon after the last one of its task.
    TooSoon = 11,
    // A completion of a job that is not open.
    NotOpen = 12,
    // The task has no bound.
    NoBound = 13,
    // What was lent is too short.
    NoRoom = 14,
    // A state, or a tally, that is not sound.
    NotSound = 15,
    // A tally that does not fit.
    NoFit = 16,
}

impl Refusal {
    pub fn number(self) -> u8
        ensures { result ≡ number_of self }
    {
        self as u8
    }
}

// A refusal is told by its number.
impl fmt::Display for Refusal {
    ghost output = { λ r. Some (decimal (number_of r)) };

    fn fmt<W: fmt::Write>(&self, f: &mut fmt::Formatter<W>) -> fmt::Result {
        write!(f, "{}", self.number())
    }
}

impl Error for Refusal {}
