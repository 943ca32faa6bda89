// One log after the other: how many records read, where and why the reading stopped, and what the records hold.
use case_frames::parts;
use event_reading::{EVENT_SIZE, Event, read};
use std::io;

// What the readable records add up to, with how many are the same bytes once they are written again.
#[derive(Clone, Copy, Default)]
struct Sums {
    kinds: u64,
    tasks: u64,
    jobs: u64,
    times: u64,
    same: u64,
}

// Whether an event is written as the bytes that it was read from, with the byte past them as it was.
fn again(event: Event, bytes: &[u8]) -> bool {
    let mut out = [0xAAu8; 21];
    event_writing::write(event, &mut out).is_ok()
        && out[20] == 0xAA
        && bytes.starts_with(&out[..20])
}

impl Sums {
    fn add(&mut self, event: Event, same: bool) {
        self.kinds = self.kinds.wrapping_add(event.kind.into());
        self.tasks = self.tasks.wrapping_add(event.task.into());
        self.jobs = self.jobs.wrapping_add(event.job);
        self.times = self.times.wrapping_add(event.time);
        self.same = self.same.wrapping_add(same.into());
    }
}

fn sums_of(log: &[u8]) -> Sums {
    let mut sums = Sums::default();
    for bytes in log.chunks(EVENT_SIZE) {
        let Ok(Some(event)) = read(bytes) else {
            return sums;
        };
        sums.add(event, again(event, bytes));
    }
    sums
}

// What reading says at record i, in a line.
fn place(rt: &impl Print, log: &[u8], i: usize) -> io::Result<()> {
    match event_logs::event_at(log, i) {
        Ok(Some(e)) => {
            let Event {
                kind,
                task,
                job,
                time,
            } = e;
            println!(rt; "event {i} {kind} {task} {job} {time}")
        }
        Ok(None) => println!(rt; "end"),
        Err(refusal) => println!(rt; "refused {i} {refusal} 0 0 0"),
    }
}

// The first records, and every hundredth.
fn places(rt: &impl Print, log: &[u8], count: usize) -> io::Result<()> {
    for i in 0..count {
        if i < 6 || i % 100 == 99 {
            place(rt, log, i)?;
        }
    }
    Ok(())
}

fn stop(rt: &impl Print, log: &[u8]) -> io::Result<()> {
    let rest = event_logs::rest(log);
    match read(rest) {
        Err(refusal) => {
            let offset = log.len() - rest.len();
            println!(rt; " stop {refusal} at {offset}")
        }
        Ok(None) => println!(rt; " end"),
        Ok(Some(_)) => println!(rt; " a record that reads"),
    }
}

fn one(rt: &impl Print, k: u64, log: &[u8]) -> io::Result<()> {
    let count = event_logs::count(log);
    print!(rt; "log {k} records {count}")?;
    stop(rt, log)?;
    places(rt, log, count)?;
    place(rt, log, count)?;
    place(rt, log, 18446744073709551615)?;
    let Sums {
        kinds,
        tasks,
        jobs,
        times,
        same,
    } = sums_of(log);
    println!(rt; "sums {kinds} {tasks} {jobs} {times} {same}")
}

pub fn each(rt: &impl Print, all: &[u8]) -> io::Result<()> {
    let mut k: u64 = 1;
    for log in parts(all) {
        one(rt, k, log)?;
        k = k.wrapping_add(1);
    }
    Ok(())
}
