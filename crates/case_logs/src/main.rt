// Prints what the library says of each log of standard input. A log stands behind its size in two bytes.
#![tactic(auto)]

mod reads;

use case_frames::input::read_full;
use std::io;

fn main(rt: HostRuntime) -> io::Result<()> {
    let mut input = [0u8; 65536];
    let size = read_full(rt.stdin(), &mut input)?;
    reads::each(&rt, &input[..size])
}
