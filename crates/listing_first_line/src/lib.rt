// The line of a task before the events, put on a sheet.
#![tactic(auto)]

ghost use Rattle.bound_one.specs.Bound.{as_bound};
ghost use Rattle.text_writing.specs.Puts.{Puts};
ghost use Rattle.listing_text.specs.TaskLines.{bound_text, task_line};

use table_rules::{Refused, Task};
use task_thresholds::{h, w};
use text_writing::Sheet;

fn bound_text(sheet: &mut Sheet<'_>, bound: Result<u32, Refused>)
    ensures { Puts sheet.old sheet.new (bound_text (as_bound bound)) }
{
    match bound {
        Ok(r) => sheet.field(b" bound ", u64::from(r)),
        Err(_) => sheet.words(b" bound -"),
    }
}

pub fn task(sheet: &mut Sheet<'_>, i: usize, task: Task, bound: Result<u32, Refused>)
    ensures { Puts sheet.old sheet.new (task_line i task (as_bound bound)) }
{
    sheet.field(b"task ", i as u64);
    sheet.field(b" w ", u64::from(w(task.m, task.k)));
    sheet.field(b" h ", u64::from(h(task.m, task.k)));
    bound_text(sheet, bound);
    sheet.words(b"\n");
}
