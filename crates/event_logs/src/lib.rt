// A log is records of events one behind another: what of it reads, and what is left.
#![tactic(auto)]

ghost use Rattle.std.specs.Prelude.{◌≡◌, ◌++◌, Some, codes};
ghost use Rattle.std.specs.Fmt.{decimal};
ghost use Rattle.refusals.specs.Numbers.{number_of};
ghost use Rattle.event_logs.specs.Log.{readable, read_at, rest_of};
ghost use Rattle.event_reading.specs.Reading.{as_reading};
ghost use Rattle.event_logs.specs.Ending.{ended_by};
ghost use Rattle.event_logs.specs.Stops.{as_ending};

use event_reading::{EVENT_SIZE, Event, read};
use refusals::Refusal;
use std::error::Error;
use std::fmt;

// The most bytes of a log that the bench rig looks at, and of an input that is listed.
pub const MOST_BYTES: usize = 65536;

// Why the reading of a log stopped, and the offset of the record that does not read.
#[derive(Clone, Copy, Debug, PartialEq, Eq)]
pub struct Stop {
    pub refusal: Refusal,
    pub offset: usize,
}

// As the listing tells it: the refusal's number, and the offset.
impl fmt::Display for Stop {
    ghost output = { λ s. Some (decimal (number_of s.refusal) ++ (codes " at " ++ decimal s.offset)) };

    fn fmt<W: fmt::Write>(&self, f: &mut fmt::Formatter<W>) -> fmt::Result {
        write!(f, "{} at {}", self.refusal, self.offset)
    }
}

impl Error for Stop {}

// What a reading that is no event says of the end, at the offset where it was got.
pub fn ended(got: Result<Option<Event>, Refusal>, offset: usize) -> Result<(), Stop>
    ensures { as_ending result ≡ ended_by (as_reading got) offset }
{
    let Err(refusal) = got else {
        return Ok(());
    };
    Err(Stop { refusal, offset })
}

// The part of a log that was not read: it is empty, or begins with the first record that does not read.
#[tactic(auto, using(crate::proofs::Records::rest_at_end, crate::proofs::Records::rest_refused))]
pub fn rest(log: &[u8]) -> &[u8]
    ensures { result.now ≡ rest_of log.now }
{
    let mut left = log;
    loop {
        let Ok(Some(_)) = read(left) else {
            return left;
        };
        left = &left[EVENT_SIZE..];
    }
}

// How many records of a log read, up to the first that does not.
#[tactic(auto, using(crate::proofs::Rests::rest_offset))]
pub fn count(log: &[u8]) -> usize
    ensures { result ≡ readable log.now }
{
    let left = rest(log);
    (log.len() - left.len()) / EVENT_SIZE
}

// What reading says at record i of a log; past the end it is the end.
#[tactic(auto, unfolding(event_reading::specs::Record::read_record))]
pub fn event_at(log: &[u8], i: usize) -> Result<Option<Event>, Refusal>
    ensures { as_reading result ≡ read_at log.now i }
{
    // The product is made only where it is within the log, so that it cannot wrap.
    if i <= log.len() / EVENT_SIZE {
        read(&log[EVENT_SIZE * i..])
    } else {
        Ok(None)
    }
}
