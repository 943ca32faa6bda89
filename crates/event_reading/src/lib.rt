// Events: the rules of an event value, and what a record of 20 bytes reads as.
#![tactic(auto)]

ghost use Rattle.std.specs.Prelude.{◌≡◌, ◌≤◌, length};
ghost use Rattle.refusals.specs.Numbers.{fault_in};
ghost use Rattle.event_reading.specs.Event.{fault_of};
ghost use Rattle.event_reading.specs.Reading.{as_reading};
ghost use Rattle.event_reading.specs.Record.{event_size, event_of, read_record};

use refusals::Refusal;

pub const TICK: u8 = 0;

pub const RELEASE: u8 = 1;

pub const COMPLETION: u8 = 2;

// The bytes of an event record.
pub const EVENT_SIZE: usize = 20;

// An event holds the numbers of its record, so a value too can break 7 or 8.
#[derive(Clone, Copy, Debug, PartialEq, Eq)]
pub struct Event {
    pub kind: u8,
    pub task: u8,
    pub job: u64,
    pub time: u64,
}

// Whether an event obeys the rules of event values.
#[tactic(auto, unfolding(crate::specs::Event::fault_of, crate::specs::Event::zeroes))]
pub fn judge(event: Event) -> Result<(), Refusal>
    ensures { fault_in result ≡ fault_of event }
{
    if COMPLETION < event.kind {
        return Err(Refusal::EventKind);
    }
    // A completion names a task and a job, and a release a task.
    if event.kind <= RELEASE && event.job != 0 {
        return Err(Refusal::EventFields);
    }
    if event.kind == TICK && event.task != 0 {
        return Err(Refusal::EventFields);
    }
    Ok(())
}

// The four numbers of a record, whatever its mark.
fn fields(bytes: &[u8]) -> Event
    requires { event_size ≤ length bytes.now }
    ensures { result ≡ event_of bytes.now }
{
    let job = number_reading::get::<u64>(&bytes[4..12]);
    let time = number_reading::get::<u64>(&bytes[12..20]);
    Event {
        kind: bytes[2],
        task: bytes[3],
        job,
        time,
    }
}

// The record at the front of a slice; none where no bytes are left.
#[tactic(auto, unfolding(crate::specs::Record::read_record, crate::specs::Record::marks))]
pub fn read(bytes: &[u8]) -> Result<Option<Event>, Refusal>
    ensures { as_reading result ≡ read_record bytes.now }
{
    if bytes.is_empty() {
        return Ok(None);
    }
    if bytes.len() < EVENT_SIZE {
        return Err(Refusal::EventSize);
    }
    if bytes[0] != 0x45 || bytes[1] != 0x56 {
        return Err(Refusal::EventMark);
    }
    let event = fields(bytes);
    judge(event)?;
    Ok(Some(event))
}
