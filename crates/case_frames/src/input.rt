// Standard input, read to where it ends or its bytes are full.
ghost use Rattle.std.specs.Prelude.{◌≤◌, IfOk, length};

use std::io::{self, Read, Stdin};

// How many bytes were read; a read that fails is the caller's error.
pub fn read_full(mut stdin: Stdin, input: &mut [u8]) -> io::Result<usize>
    ensures { IfOk result (λ n. n ≤ length input.new) }
{
    let mut done: usize = 0;
    while done < input.len() {
        match stdin.read(&mut input[done..])? {
            0 => break,
            more => done += more,
        }
    }
    Ok(done)
}
