// An event's own task, on the record as step 1 leaves it: what refuses the event, and what it makes of the record.
ghost use Rattle.std.specs.Prelude.{◌≡◌};
ghost use Rattle.refusals.specs.Numbers.{fault_in};
ghost use Rattle.task_steps.specs.Own.{too_soon, reopened, is_open, release_fault, completion_fault, own_fault, own_after};

use super::opening::release;
use event_reading::{Event, RELEASE, TICK};
use refusals::Refusal;
use task_records::Record;
use task_records::closing::close;

// 11, without the sum of last release and T.
pub fn too_soon(of: Record, time: u64) -> bool
    ensures { result ≡ too_soon of time }
{
    of.released != 0 && (time < of.last || time - of.last < u64::from(of.task.t))
}

pub fn is_open(of: Record, job: u64) -> bool
    ensures { result ≡ is_open of job }
{
    of.live && of.released == job
}

// Step 2: what is still open is closed as missed, and the new job opens.
pub fn reopen(of: Record, time: u64) -> Record
    ensures { result ≡ reopened of time }
{
    let closed = if of.live { close(of, false) } else { of };
    release(closed, time)
}

fn release_fault(of: Record, event: Event) -> Result<(), Refusal>
    ensures { fault_in result ≡ release_fault of event }
{
    if too_soon(of, event.time) {
        return Err(Refusal::TooSoon);
    }
    Ok(())
}

fn completion_fault(of: Record, event: Event) -> Result<(), Refusal>
    ensures { fault_in result ≡ completion_fault of event }
{
    if !is_open(of, event.job) {
        return Err(Refusal::NotOpen);
    }
    Ok(())
}

// What refuses the event, if anything does.
#[tactic(auto, unfolding(crate::specs::Own::own_fault))]
pub fn own_fault(of: Record, event: Event) -> Result<(), Refusal>
    ensures { fault_in result ≡ own_fault of event }
{
    match event.kind {
        TICK => Ok(()),
        RELEASE => release_fault(of, event),
        _ => completion_fault(of, event),
    }
}

// The record after an event that nothing refuses.
#[tactic(auto, unfolding(crate::specs::Own::own_after))]
pub fn own_after(of: Record, event: Event) -> Record
    ensures { result ≡ own_after of event }
{
    match event.kind {
        TICK => of,
        RELEASE => reopen(of, event.time),
        _ => close(of, true),
    }
}
