// The two engines side by side: the first difference, or how many events came out the same, and how often each answer came.
#![tactic(auto)]

mod dice;
mod events_of;
mod runs;

use std::io;

fn line(rt: &impl Print, n: usize, times: u64) -> io::Result<()> {
    match n {
        16 => println!(rt; "run: {times}"),
        17 => println!(rt; "idle: {times}"),
        _ if times == 0 => Ok(()),
        _ => println!(rt; "refused {n}: {times}"),
    }
}

fn main(rt: HostRuntime) -> io::Result<()> {
    let walk = runs::all();
    let events = walk.events;
    if walk.same {
        println!(&rt; "{events} events, same answers and states")?;
    } else {
        println!(&rt; "the answers or the states differ at event {events}")?;
    }
    for (n, times) in walk.seen.iter().enumerate() {
        line(&rt, n, *times)?;
    }
    Ok(())
}
