// One table record: its bytes, and what they read as. 2, then the task's own 3 and 4.
ghost use Rattle.std.specs.Prelude.{◌≡◌, length};
ghost use Rattle.table_reading.specs.Answers.{as_row};
ghost use Rattle.table_reading.specs.Row.{task_size, task_of, read_row};

use super::TASK_SIZE;
use refusals::Refusal;
use table_rules::Task;
use table_rules::rules::judge_task;

#[tactic(auto, using(laws::proofs::Parts::tail_is))]
fn task_of(row: &[u8]) -> Task
    requires { length row.now ≡ task_size }
    ensures { result ≡ task_of row.now }
{
    Task {
        c: number_reading::get::<u32>(&row[2..]),
        d: number_reading::get::<u32>(&row[6..]),
        t: number_reading::get::<u32>(&row[10..]),
        m: row[14],
        k: row[15],
    }
}

#[tactic(auto, unfolding(crate::specs::Row::read_row, crate::specs::Row::record_fault), using(crate::proofs::Rows::row_by_number))]
pub fn read_task(bytes: &[u8]) -> Result<Task, Refusal>
    ensures { as_row result ≡ read_row bytes.now }
{
    if bytes.len() != TASK_SIZE {
        return Err(Refusal::TaskCount);
    }
    if bytes[0] != 0x54 || bytes[1] != 0x4B {
        return Err(Refusal::TaskMark);
    }
    let task = task_of(bytes);
    judge_task(task)?;
    Ok(task)
}
