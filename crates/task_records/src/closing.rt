// Closing a job: level, run, counts and window together.
ghost use Rattle.std.specs.Prelude.{◌≡◌, true, false};
ghost use Rattle.task_records.specs.Window.{window_of, broken_by};
ghost use Rattle.task_records.specs.Closing.{set_back, closed};

use super::Record;
use task_levels::{class, low, raise};
use task_marks::counting::next;
use task_marks::{misses_in, push};
use task_thresholds::{h, top, w};

pub fn window(of: Record) -> u32
    ensures { result ≡ window_of of }
{
    misses_in(of.marks)
}

// What broken becomes once the open job has closed and left these marks.
fn broken_by(of: Record, marks: u64) -> u64
    ensures { result ≡ broken_by of marks }
{
    if of.broken != 0 {
        of.broken
    } else if u32::from(of.task.m) < misses_in(marks) {
        of.released
    } else {
        0
    }
}

// In class 0, or by the run. A run that 32 bits can't lengthen is past every w.
fn sets_back(of: Record) -> bool
    ensures { result ≡ set_back of }
{
    class(of.level) == 0 || u32::from(w(of.task.m, of.task.k)) <= of.run.saturating_add(1)
}

#[tactic(auto, unfolding(crate::specs::Closing::closed))]
fn close_met(of: Record) -> Record
    ensures { result ≡ closed of true }
{
    let marks = push(of.marks, of.task.k, false);
    Record {
        level: raise(of.level, top(of.task.m, of.task.k)),
        run: 0,
        live: false,
        met: next(of.met),
        marks,
        broken: broken_by(of, marks),
        ..of
    }
}

#[tactic(auto, unfolding(crate::specs::Closing::closed))]
fn close_missed(of: Record) -> Record
    ensures { result ≡ closed of false }
{
    let marks = push(of.marks, of.task.k, true);
    let r = Record {
        live: false,
        missed: next(of.missed),
        marks,
        broken: broken_by(of, marks),
        ..of
    };
    if sets_back(of) {
        return Record {
            level: low(h(of.task.m, of.task.k)),
            run: 0,
            ..r
        };
    }
    Record {
        run: of.run + 1,
        ..r
    }
}

pub fn close(of: Record, met: bool) -> Record
    ensures { result ≡ closed of met }
{
    if met { close_met(of) } else { close_missed(of) }
}
