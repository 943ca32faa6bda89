// An event against its own task, on values: 7, 8, 9, 10, then what refuses it of its own task, and the task's record afterwards.
ghost use Rattle.std.specs.Prelude.{◌≡◌};
ghost use Rattle.refusals.specs.Numbers.{fault_in};
ghost use Rattle.apply_ruling.specs.Answer.{as_ruling};
ghost use Rattle.apply_ruling.specs.Ruling.{seat_of, bar_of, ruled};

use event_reading::{Event, judge};
use refusals::Refusal;
use state_rules::LIMIT;
use task_records::Record;
use task_steps::opening::expire;
use task_steps::own::{own_after, own_fault};

// Where the event's task stands; the first place is looked at where there is no such task.
pub fn seat(task: u8, count: usize) -> usize
    ensures { result ≡ seat_of task count }
{
    let at = usize::from(task);
    if at < count { at } else { 0 }
}

#[tactic(auto, unfolding(crate::specs::Ruling::bar_of))]
fn bar(clock: u64, count: usize, event: Event) -> Result<(), Refusal>
    ensures { fault_in result ≡ bar_of clock count event }
{
    judge(event)?;
    if LIMIT < event.time || event.time < clock {
        return Err(Refusal::EventTime);
    }
    if count <= usize::from(event.task) {
        return Err(Refusal::NoTask);
    }
    Ok(())
}

// The task's record after the event. A refused event leaves the record as it stood, step 1 undone too.
#[tactic(auto, unfolding(crate::specs::Ruling::ruled))]
pub fn rule(clock: u64, count: usize, of: Record, event: Event) -> Result<Record, Refusal>
    ensures { as_ruling of result ≡ ruled clock count of event }
{
    bar(clock, count, event)?;
    let one = expire(of, event.time);
    own_fault(one, event)?;
    Ok(own_after(one, event))
}
