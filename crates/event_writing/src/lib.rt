// Writing the record of an event: the value's own refusal, then 14; bytes past the record stay, and a refused write leaves all.
#![tactic(auto)]

ghost use Rattle.std.specs.Prelude.{◌≡◌, ◌++◌, ◌≤◌, length, drop};
ghost use Rattle.event_reading.specs.Record.{event_size};
ghost use Rattle.event_writing.specs.Answer.{as_writing};
ghost use Rattle.event_writing.specs.Writing.{record_of, wrote_record, after_write};

use event_reading::{EVENT_SIZE, Event, judge};
use refusals::Refusal;

// Stores the record of an event; there is room for it.
fn store(event: Event, out: &mut [u8])
    requires { event_size ≤ length out.old }
    ensures { out.new ≡ record_of event ++ drop event_size out.old }
{
    out[..4].copy_from_slice(&[0x45, 0x56, event.kind, event.task]);
    number_writing::put(&mut out[4..12], event.job);
    number_writing::put(&mut out[12..EVENT_SIZE], event.time);
}

// Writes the record of an event to the front of a slice; what is refused leaves the slice as it was.
#[tactic(auto, unfolding(crate::specs::Writing::wrote_record, crate::specs::Writing::after_write), using(refusals::proofs::Numbers::number_some))]
pub fn write(event: Event, out: &mut [u8]) -> Result<(), Refusal>
    ensures { (as_writing result ≡ wrote_record event out.old) × (out.new ≡ after_write event out.old) }
{
    judge(event)?;
    if out.len() < EVENT_SIZE {
        return Err(Refusal::NoRoom);
    }
    store(event, out);
    Ok(())
}
