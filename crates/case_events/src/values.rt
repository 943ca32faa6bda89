// Event values that obey or break the rules, judged and written to slices with and without room.
use event_reading::Event;
use std::io;

const KINDS: [u8; 5] = [0, 1, 2, 3, 255];

const TASKS: [u8; 3] = [0, 1, 255];

const JOBS: [u64; 3] = [0, 1, 18446744073709551615];

const ROOMS: [usize; 4] = [0, 19, 20, 24];

// What writing to the first bytes of a slice says, and every byte of it afterwards.
fn written(rt: &impl Print, event: Event, room: usize) -> io::Result<()> {
    let mut out = [0x5Au8; 24];
    let Some(lent) = out.get_mut(..room) else {
        return Ok(());
    };
    match event_writing::write(event, lent) {
        Ok(()) => print!(rt; "written")?,
        Err(refusal) => print!(rt; "refused {refusal}")?,
    }
    for byte in &out {
        print!(rt; " {byte}")?;
    }
    println!(rt; "")
}

// One event and one slice, in two lines: how it is judged, and how it is written.
fn one(rt: &impl Print, kind: u8, task: u8, job: u64, room: usize) -> io::Result<()> {
    let event = Event {
        kind,
        task,
        job,
        time: 1000000000000,
    };
    print!(rt; "value {kind} {task} {job} {room} ")?;
    match event_reading::judge(event) {
        Ok(()) => println!(rt; "0")?,
        Err(refusal) => println!(rt; "{refusal}")?,
    }
    written(rt, event, room)
}

pub fn each(rt: &impl Print) -> io::Result<()> {
    for kind in KINDS {
        for task in TASKS {
            for job in JOBS {
                for room in ROOMS {
                    one(rt, kind, task, job, room)?;
                }
            }
        }
    }
    Ok(())
}
