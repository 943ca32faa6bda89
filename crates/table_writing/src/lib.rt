// Writing a table: the value's own refusal, then 14; bytes past the records stay, and a refused write leaves all.
#![tactic(auto)]

ghost use Rattle.std.specs.Prelude.{◌≡◌, ◌++◌, ◌*◌, ◌≤◌, length, drop};
ghost use Rattle.table_rules.specs.Answers.{as_answer};
ghost use Rattle.table_rules.specs.Limits.{most_tasks};
ghost use Rattle.table_reading.specs.Row.{task_size};
ghost use Rattle.table_writing.specs.Writing.{record_of, records_of, write_answer, wrote_table};

use refusals::Refusal;
use table_reading::TASK_SIZE;
use table_rules::rules::judge;
use table_rules::{Refused, Table, Task};

#[tactic(auto, unfolding(number_writing::specs::Bytes::wrote, number_writing::specs::Bytes::bytes))]
fn record_of(task: Task) -> [u8; TASK_SIZE]
    ensures { result ≡ record_of task }
{
    let mut row = [0u8; TASK_SIZE];
    row[0] = 0x54;
    row[1] = 0x4B;
    number_writing::put(&mut row[2..], task.c);
    number_writing::put(&mut row[6..], task.d);
    number_writing::put(&mut row[10..], task.t);
    row[14] = task.m;
    row[15] = task.k;
    row
}

fn write_records(table: Table, out: &mut [u8])
    requires { (table.count ≤ most_tasks) × (task_size * table.count ≤ length out.old) }
    ensures { out.new ≡ records_of table.tasks table.count ++ drop (task_size * table.count) out.old }
{
    for i in 0..table.count {
        let at = TASK_SIZE * i;
        out[at..at + TASK_SIZE].copy_from_slice(&record_of(table.tasks[i]));
    }
}

#[tactic(auto, unfolding(crate::specs::Writing::write_answer, crate::specs::Writing::wrote_table), using(crate::proofs::Records::count_most))]
pub fn write(table: Table, out: &mut [u8]) -> Result<(), Refused>
    ensures { (as_answer result ≡ write_answer table (length out.old)) × (out.new ≡ wrote_table table out.old) }
{
    judge(table)?;
    if out.len() < TASK_SIZE * table.count {
        return Err(Refused {
            refusal: Refusal::NoRoom,
            position: 0,
        });
    }
    write_records(table, out);
    Ok(())
}
