// The listing program: standard input, read to one byte past the limit, and its listing on standard output in one piece.
// Its exit status is 0 whatever was lost, so a line on standard error says that; where nothing was lost, there is none.
#![tactic(auto)]

ghost use Rattle.std.specs.Prelude.{◌≤◌, IfOk, length};

use listing_of_input::{ROOM, list};
use std::fs::{self, OpenFile, OpenOptions};
use std::io::{self, ErrorKind, Read, Stdin};
use std::rt::Files;

// How many bytes were read until the input ended or its bytes were full; where a read failed, nobody knows what was to come.
fn read_in(mut stdin: Stdin, input: &mut [u8]) -> io::Result<usize>
    ensures { IfOk result (λ n. n ≤ length input.new) }
{
    let mut done: usize = 0;
    while done < input.len() {
        match stdin.read(&mut input[done..])? {
            0 => break,
            more => done += more,
        }
    }
    Ok(done)
}

const STDOUT: &str = "/dev/stdout";

// Whether the disk has taken what is in standard output, where that is a file.
fn stored(rt: &impl Files) -> bool {
    let Ok(found) = fs::metadata(rt, STDOUT) else {
        return true;
    };
    if !found.is_file() {
        return true;
    }
    let Ok(file) = OpenOptions::new().write(true).open(rt, STDOUT) else {
        return true;
    };
    match file.sync_data() {
        Ok(()) => true,
        // a file that has no disk behind it
        Err(e) => e.kind() == ErrorKind::InvalidInput,
    }
}

// The text is written and its file synced, since a disk behind a network may say only then that it is full.
fn printed(rt: &(impl Print + Files), text: &[u8]) -> bool {
    rt.write_all(text).is_ok() && stored(rt)
}

// What was lost; where even that can't be written, nothing is left to say it on.
fn told(rt: &impl Eprint, words: &str) {
    let _ = rt.eprintln(words);
}

fn main(rt: HostRuntime) {
    let mut input = [0u8; 65537];
    let Ok(size) = read_in(rt.stdin(), &mut input) else {
        told(
            &rt,
            "listing: standard input could not be read to its end, so nothing is listed; give it a file or a pipe",
        );
        return;
    };
    let mut text = [0u8; ROOM];
    // 14 does not come: no listing is longer
    let Ok(end) = list(&input[..size], &mut text) else {
        return;
    };
    if !printed(&rt, &text[..end]) {
        told(
            &rt,
            "listing: standard output did not take the whole listing, so what it has is cut; open it or give it room",
        );
    }
}
