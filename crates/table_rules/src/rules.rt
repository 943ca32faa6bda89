// Judging a task and a table: the first rule that is broken, by the rules' number.
ghost use Rattle.std.specs.Prelude.{◌≡◌};
ghost use Rattle.table_rules.specs.Rules.{times_hold, misses_hold, task_fault};
ghost use Rattle.refusals.specs.Numbers.{fault_in};
ghost use Rattle.table_rules.specs.Answers.{as_answer};
ghost use Rattle.table_rules.specs.Judging.{judged};

use super::{LONGEST_T, MOST_TASKS, Refused, Table, Task, WIDEST_K};
use refusals::Refusal;

fn times_hold(task: Task) -> bool
    ensures { result ≡ times_hold task }
{
    1 <= task.c && task.c <= task.d && task.d <= task.t && task.t <= LONGEST_T
}

fn misses_hold(task: Task) -> bool
    ensures { result ≡ misses_hold task }
{
    1 <= task.k && task.k <= WIDEST_K && task.m < task.k && (task.m != 0 || task.k == 1)
}

// The times before the misses.
#[tactic(auto, unfolding(crate::specs::Rules::task_fault))]
pub fn judge_task(task: Task) -> Result<(), Refusal>
    ensures { fault_in result ≡ task_fault task }
{
    if !times_hold(task) {
        return Err(Refusal::TaskTimes);
    }
    if !misses_hold(task) {
        return Err(Refusal::TaskMisses);
    }
    Ok(())
}

#[tactic(auto, unfolding(crate::specs::Judging::judged, crate::specs::Judging::first_fault), using(crate::proofs::Faults::none_more))]
pub fn judge(table: Table) -> Result<(), Refused>
    ensures { as_answer result ≡ judged table }
{
    if !(1..=MOST_TASKS).contains(&table.count) {
        return Err(Refused {
            refusal: Refusal::TaskCount,
            position: 0,
        });
    }
    for position in 0..table.count {
        if let Err(refusal) = judge_task(table.tasks[position]) {
            return Err(Refused { refusal, position });
        }
    }
    Ok(())
}
