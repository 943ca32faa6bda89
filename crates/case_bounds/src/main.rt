// Framed table bytes on standard input (two bytes of size, then the bytes): a line for each, with each task's bound and what all say.
#![tactic(auto)]

use case_frames::input::read_full;
use case_frames::parts;
use refusals::Refusal;
use std::io;
use table_rules::{Refused, Table, Task};

fn told(rt: &impl Print, answer: Result<(), Refused>) -> io::Result<()> {
    match answer {
        Ok(()) => print!(rt; "accepted"),
        Err(refused) => print!(rt; "refused {refused}"),
    }
}

// `-` where just the task that was asked has no bound, and any other refusal.
fn bound(rt: &impl Print, table: Table, k: usize) -> io::Result<()> {
    let no_bound = Refused {
        refusal: Refusal::NoBound,
        position: k,
    };
    match bound_one::of_table::bound(table, k) {
        Ok(r) => print!(rt; " {r}"),
        Err(refused) if refused == no_bound => print!(rt; " -"),
        Err(refused) => print!(rt; " refused {refused}"),
    }
}

fn each_bound(rt: &impl Print, table: Table) -> io::Result<()> {
    if 16 < table.count {
        return Ok(());
    }
    for k in 0..table.count {
        bound(rt, table, k)?;
    }
    Ok(())
}

// A number in no table, so that a cell which holds it was not written.
const LENT: u32 = 4294967295;

// The cells of a row of 20: a point for each that is as it was lent.
fn cells(rt: &impl Print, row: &[u32; 20]) -> io::Result<()> {
    print!(rt; " ")?;
    for value in row {
        if *value == LENT {
            print!(rt; ".")?;
        } else {
            print!(rt; "{value} ")?;
        }
    }
    Ok(())
}

// All bounds into so many cells: the answer, and the whole row afterwards.
fn all_into(rt: &impl Print, table: Table, room: usize) -> io::Result<()> {
    let mut row = [LENT; 20];
    let Some(lent) = row.get_mut(..room) else {
        return Ok(());
    };
    let answer = bound_all::of_table::all(table, lent);
    print!(rt; ", ")?;
    told(rt, answer)?;
    cells(rt, &row)
}

fn all(rt: &impl Print, table: Table) -> io::Result<()> {
    let count = table.count;
    all_into(rt, table, 20)?;
    all_into(rt, table, count)?;
    if 0 < count {
        all_into(rt, table, count - 1)?;
    }
    Ok(())
}

// One bound asked and all, where the table itself is refused.
fn refused_by(rt: &impl Print, table: Table, k: usize, room: usize) -> io::Result<()> {
    bound(rt, table, k)?;
    all_into(rt, table, room)
}

fn miscounted(rt: &impl Print, table: Table) -> io::Result<()> {
    refused_by(rt, Table { count: 0, ..table }, 0, 0)?;
    refused_by(rt, Table { count: 17, ..table }, 17, 20)
}

fn misruled(rt: &impl Print, table: Table) -> io::Result<()> {
    let count = table.count;
    if count < 1 || 16 < count {
        return Ok(());
    }
    let last = count - 1;
    let mut other = table;
    let task = Task {
        c: 0,
        ..other.tasks[last]
    };
    other.tasks[last] = task;
    refused_by(rt, other, count, 0)?;
    other.tasks[last] = Task {
        c: 1,
        k: 65,
        ..task
    };
    refused_by(rt, other, 0, 20)
}

fn asked(rt: &impl Print, table: Table) -> io::Result<()> {
    each_bound(rt, table)?;
    bound(rt, table, table.count)?;
    bound(rt, table, 18446744073709551615)?;
    all(rt, table)?;
    miscounted(rt, table)?;
    misruled(rt, table)
}

fn one(rt: &impl Print, bytes: &[u8]) -> io::Result<()> {
    match table_reading::table::read(bytes) {
        Ok(table) => {
            told(rt, Ok(()))?;
            asked(rt, table)?;
        }
        Err(refused) => told(rt, Err(refused))?,
    }
    println!(rt; "")
}

fn main(rt: HostRuntime) -> io::Result<()> {
    let mut input = [0u8; 65536];
    let n = read_full(rt.stdin(), &mut input)?;
    for part in parts(&input[..n]) {
        one(&rt, part)?;
    }
    Ok(())
}
