// A fresh record, an expired one, and one whose next job opens.
ghost use Rattle.std.specs.Prelude.{◌≡◌};
ghost use Rattle.task_steps.specs.Opening.{fresh, no_record, late, expired, opened};

use table_rules::Task;
use task_levels::{class, low};
use task_marks::counting::next;
use task_records::Record;
use task_records::closing::close;
use task_thresholds::h;

pub fn fresh_of(task: Task) -> Record
    ensures { result ≡ fresh task }
{
    Record {
        task,
        level: low(h(task.m, task.k)),
        ..no_record()
    }
}

// A place that holds no task.
pub fn no_record() -> Record
    ensures { result ≡ no_record }
{
    Record {
        task: Task {
            c: 0,
            d: 0,
            t: 0,
            m: 0,
            k: 0,
        },
        level: 0,
        run: 0,
        live: false,
        class: 0,
        last: 0,
        released: 0,
        met: 0,
        missed: 0,
        marks: 0,
        broken: 0,
    }
}

// Whether the open job's deadline is below the time; no sum is made, since any record is taken.
pub fn is_late(of: Record, time: u64) -> bool
    ensures { result ≡ late of time }
{
    of.live && u64::from(of.task.d) < time && of.last < time - u64::from(of.task.d)
}

#[tactic(auto, unfolding(crate::specs::Opening::expired))]
pub fn expire(of: Record, time: u64) -> Record
    ensures { result ≡ expired of time }
{
    if is_late(of, time) {
        close(of, false)
    } else {
        of
    }
}

#[tactic(auto, unfolding(crate::specs::Opening::opened))]
pub fn release(of: Record, time: u64) -> Record
    ensures { result ≡ opened of time }
{
    Record {
        live: true,
        class: class(of.level),
        last: time,
        released: next(of.released),
        ..of
    }
}
