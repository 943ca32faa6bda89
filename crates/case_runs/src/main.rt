// Framed tables and logs on standard input (two bytes of size before each): what every event answers, and what the tasks then hold.
#![tactic(auto)]

mod runs;

use case_frames::input::read_full;
use case_frames::parts;
use std::io;

fn each(rt: &impl Print, all: &[u8]) -> io::Result<()> {
    let mut parts = parts(all);
    while let Some(table) = parts.next() {
        runs::one(rt, table, parts.next().unwrap_or(&[]))?;
    }
    Ok(())
}

fn main(rt: HostRuntime) -> io::Result<()> {
    let mut input = [0u8; 65536];
    let n = read_full(rt.stdin(), &mut input)?;
    each(&rt, &input[..n])
}
