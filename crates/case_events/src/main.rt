// Prints how the library judges and writes each of a list of event values.
#![tactic(auto)]

mod values;

use std::io;

fn main(rt: HostRuntime) -> io::Result<()> {
    values::each(&rt)
}
