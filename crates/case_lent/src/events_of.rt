// Tables of small times and events near the clock, so that every refusal, expiry and completion comes up.
use crate::dice::{next, pick};
use event_reading::{COMPLETION, Event, RELEASE, TICK};
use state_rules::State;
use table_rules::{PLACES, Table, Task};

fn task(x: u64) -> Task {
    let x1 = next(x);
    let x2 = next(x1);
    let x3 = next(x2);
    let c = 1 + pick(x, 3);
    let d = c + pick(x1, 5);
    let t = d + pick(x2, 5);
    let k = 1 + pick(x3, 8);
    let m = if 1 < k { 1 + pick(next(x3), k - 1) } else { 0 };
    Task {
        c: c as u32,
        d: d as u32,
        t: t as u32,
        m: (m % 256) as u8,
        k: (k % 256) as u8,
    }
}

pub fn table(seed: u64) -> Table {
    let count = (1 + seed % 16) as usize;
    let mut tasks = [Task::default(); PLACES];
    let mut x = next(seed % 1000 + 7);
    for one in tasks[..count].iter_mut() {
        *one = task(x);
        x = next(x);
    }
    Table { count, tasks }
}

// The number of a task's last job, or near it.
fn job_of(state: State, task: u64, x: u64) -> u64 {
    if 15 < task {
        return 1;
    }
    if pick(x, 12) == 0 {
        return pick(x, 5);
    }
    state.records[task as usize].released
}

fn time_of(clock: u64, x: u64) -> u64 {
    match pick(x, 400) {
        0 => 1000000000001,
        by if by < 12 => clock / 2,
        _ if 1000000000000 < clock => clock,
        by => clock + by % 4,
    }
}

// Mostly sound kinds; some that break 7, 8 or 10.
pub fn event(state: State, x: u64) -> Event {
    let x1 = next(x);
    let x2 = next(x1);
    let x3 = next(x2);
    let at = pick(x1, 17) % (1 + state.count as u64 % 17);
    let task = (at % 256) as u8;
    let time = time_of(state.clock, x2);
    let (kind, task, job) = match pick(x, 22) {
        0..4 => (TICK, 0, 0),
        4..12 => (RELEASE, task, 0),
        12..20 => (COMPLETION, task, job_of(state, at, x3)),
        _ => (pick(x3, 4) as u8, task, pick(x3, 3)),
    };
    Event {
        kind,
        task,
        job,
        time,
    }
}
