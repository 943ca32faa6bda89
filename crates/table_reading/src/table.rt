// Reading table bytes: 1 first, then record by record 2, 3, 4.
ghost use Rattle.std.specs.Prelude.{◌≡◌, ◌*◌, ◌≤◌, length};
ghost use Rattle.table_rules.specs.Limits.{most_tasks};
ghost use Rattle.table_rules.specs.Judging.{first_fault};
ghost use Rattle.table_reading.specs.Row.{task_size};
ghost use Rattle.table_reading.specs.Table.{record_fault_at, table_of, as_table_read, beside, read_table};

use super::TASK_SIZE;
use super::record::read_task;
use refusals::Refusal;
use table_rules::{MOST_TASKS, PLACES, Refused, Table, Task};

fn read_records(bytes: &[u8], count: usize) -> Result<Table, Refused>
    requires { (count ≤ most_tasks) × (length bytes.now ≡ task_size * count) }
    ensures { as_table_read result ≡ beside (first_fault (record_fault_at bytes.now) count) (table_of bytes.now count) }
{
    let mut tasks = [Task::default(); PLACES];
    for position in 0..count {
        let at = TASK_SIZE * position;
        match read_task(&bytes[at..at + TASK_SIZE]) {
            Ok(task) => tasks[position] = task,
            Err(refusal) => return Err(Refused { refusal, position }),
        }
    }
    Ok(Table { count, tasks })
}

#[tactic(auto, unfolding(crate::specs::Table::read_table, crate::specs::Table::read_answer))]
pub fn read(bytes: &[u8]) -> Result<Table, Refused>
    ensures { as_table_read result ≡ read_table bytes.now }
{
    let count = bytes.len() / TASK_SIZE;
    if bytes.len() % TASK_SIZE != 0 || !(1..=MOST_TASKS).contains(&count) {
        return Err(Refused {
            refusal: Refusal::TaskCount,
            position: 0,
        });
    }
    read_records(bytes, count)
}

// What is read: a table that is refused is read as a table of no tasks.
pub fn table_in(read: Result<Table, Refused>) -> Table
    ensures { result ≡ (as_table_read read).table }
{
    read.unwrap_or(Table {
        count: 0,
        tasks: [Task::default(); PLACES],
    })
}
