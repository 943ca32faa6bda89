// The table of n tasks: C 1, D and T by the position, and the eight pairs (m, K) in turn.
#![tactic(auto)]

ghost use Rattle.std.specs.Prelude.{◌≡◌, ◌≤◌};
ghost use Rattle.bench_table.specs.Table.{count_of, spacing_of, task_at, table_of};

use table_rules::{PLACES, Table, Task};

// 1 to 16, whatever is asked.
pub fn count(tasks: u32) -> u32
    ensures { (result ≡ count_of tasks) × ((1 ≤ result) × (result ≤ 16)) }
{
    tasks.clamp(1, 16)
}

pub fn spacing(tasks: u32, at: u8) -> u32
    ensures { result ≡ spacing_of tasks at }
{
    if tasks == 1 { 22 } else { 11 + u32::from(at) }
}

pub fn task(tasks: u32, at: u8) -> Task
    ensures { result ≡ task_at tasks at }
{
    let pairs = [
        (1u8, 2u8),
        (2, 3),
        (1, 3),
        (2, 5),
        (3, 5),
        (63, 64),
        (1, 64),
        (0, 1),
    ];
    let pair = (usize::from(at) + 2) % 8;
    let (m, k) = pairs[pair];
    let spaced = spacing(tasks, at);
    Task {
        c: 1,
        d: spaced,
        t: spaced,
        m,
        k,
    }
}

#[tactic(auto, unfolding(laws::specs::Stores::filled))]
pub fn table(tasks: u32) -> Table
    ensures { result ≡ table_of tasks }
{
    let count = count(tasks);
    let mut row = [Task::default(); PLACES];
    for i in 0..count as u8 {
        row[usize::from(i)] = task(count, i);
    }
    Table {
        count: count as usize,
        tasks: row,
    }
}
