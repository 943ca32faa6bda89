// Framed table bytes on standard input (two bytes of size, then the bytes): a line for each, what reading and writing say.
#![tactic(auto)]

use case_frames::input::read_full;
use case_frames::parts;
use std::io;
use table_rules::{Refused, Table, Task};

fn told(rt: &impl Print, answer: Result<(), Refused>) -> io::Result<()> {
    match answer {
        Ok(()) => print!(rt; "accepted"),
        Err(refused) => print!(rt; "refused {refused}"),
    }
}

fn thresholds_of(rt: &impl Print, task: Task) -> io::Result<()> {
    let w = task_thresholds::w(task.m, task.k);
    let h = task_thresholds::h(task.m, task.k);
    let top = task_thresholds::top(task.m, task.k);
    print!(rt; " {w}/{h}/{top}")
}

fn thresholds(rt: &impl Print, table: Table) -> io::Result<()> {
    for task in table.tasks.iter().take(table.count) {
        thresholds_of(rt, *task)?;
    }
    Ok(())
}

// Whether the bytes stand at the front of a row of 272, and 165 in every place past them.
fn stands(row: &[u8; 272], bytes: &[u8]) -> bool {
    row.starts_with(bytes) && row.iter().skip(bytes.len()).all(|b| *b == 165)
}

// Writing into a row of so many bytes: the answer, and whether just what it says stands there.
fn write_into(rt: &impl Print, table: Table, room: usize, bytes: &[u8]) -> io::Result<()> {
    let mut row = [165u8; 272];
    let Some(lent) = row.get_mut(..room) else {
        return Ok(());
    };
    let answer = table_writing::write(table, lent);
    print!(rt; ", ")?;
    told(rt, answer)?;
    if stands(&row, bytes) {
        print!(rt; " as told")
    } else {
        print!(rt; " NOT AS TOLD")
    }
}

fn writes(rt: &impl Print, table: Table, bytes: &[u8]) -> io::Result<()> {
    let size = bytes.len();
    write_into(rt, table, 272, bytes)?;
    write_into(rt, table, size, bytes)?;
    if 0 < size {
        write_into(rt, table, size - 1, b"")?;
    }
    write_into(rt, Table { count: 0, ..table }, 272, b"")?;
    write_into(rt, Table { count: 17, ..table }, 272, b"")
}

fn one(rt: &impl Print, bytes: &[u8]) -> io::Result<()> {
    match table_reading::table::read(bytes) {
        Ok(table) => {
            told(rt, Ok(()))?;
            thresholds(rt, table)?;
            writes(rt, table, bytes)?;
        }
        Err(refused) => told(rt, Err(refused))?,
    }
    println!(rt; "")
}

fn main(rt: HostRuntime) -> io::Result<()> {
    let mut input = [0u8; 65536];
    let n = read_full(rt.stdin(), &mut input)?;
    for part in parts(&input[..n]) {
        one(&rt, part)?;
    }
    Ok(())
}
