// The listing of every input: the input taken apart, and the whole text in lent bytes.
#![tactic(auto)]

ghost use Rattle.std.specs.Prelude.{◌≡◌, Some, None, cond, length};
ghost use Rattle.text_writing.specs.Sheet.{sheet, puts};
ghost use Rattle.text_writing.specs.Puts.{Puts};
ghost use Rattle.listing_text.specs.Listing.{table_there, events_from, listing_of};
ghost use Rattle.listing_of_input.specs.Answer.{as_listing};
ghost use Rattle.listing_of_input.specs.Lent.{list_answer, listed_into};

use event_logs::MOST_BYTES;
use listing_of_table::of_table;
use listing_refusal_line::{refused, too_long};
use refusals::Refusal;
use table_reading::TASK_SIZE;
use table_rules::MOST_TASKS;
use text_writing::Sheet;

// No listing is longer.
pub const ROOM: usize = 131072;

// Where the events begin: behind the byte n and n table records. None where n is no count of tasks or not all of them are there.
fn events_from(input: &[u8]) -> Option<usize>
    ensures { result ≡ cond (table_there input.now) (Some (events_from input.now)) None }
{
    let n = usize::from(*input.first()?);
    let from = 1 + TASK_SIZE * n;
    if n < 1 || MOST_TASKS < n || input.len() < from {
        return None;
    }
    Some(from)
}

fn lines(sheet: &mut Sheet<'_>, input: &[u8])
    ensures { Puts sheet.old sheet.new (listing_of input.now) }
{
    if MOST_BYTES < input.len() {
        too_long(sheet);
        return;
    }
    match events_from(input) {
        Some(from) => of_table(sheet, &input[1..from], &input[from..]),
        None => refused(sheet, Refusal::TaskCount.number(), 0),
    }
}

// The lines on a sheet of these bytes; the answer is the place behind them.
fn written(out: &mut [u8], input: &[u8]) -> usize
    ensures { sheet out.new result ≡ puts (sheet out.old 0) (listing_of input.now) }
{
    let mut sheet = Sheet { out, at: 0 };
    lines(&mut sheet, input);
    sheet.at
}

// The listing of an input in lent bytes; Ok tells how many of them are the text. It is made in bytes of its own first, so that bytes that are too short for it
// are left as they were.
pub fn list(input: &[u8], out: &mut [u8]) -> Result<usize, Refusal>
    ensures { (as_listing result ≡ list_answer input.now (length out.old))
        × (out.new ≡ listed_into input.now out.old) }
{
    let mut text = [0u8; ROOM];
    let end = written(&mut text, input);
    if out.len() < end {
        return Err(Refusal::NoRoom);
    }
    out[..end].copy_from_slice(&text[..end]);
    Ok(end)
}
