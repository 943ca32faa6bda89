// The line of a task as the events have left it, put on a sheet.
#![tactic(auto)]

ghost use Rattle.text_writing.specs.Puts.{Puts};
ghost use Rattle.listing_text.specs.TaskLines.{counts_text, window_text, last_line};

use task_records::Record;
use task_records::closing::window;
use text_writing::Sheet;

fn counts_text(sheet: &mut Sheet<'_>, record: Record)
    ensures { Puts sheet.old sheet.new (counts_text «record») }
{
    sheet.field(b" met ", record.met);
    sheet.field(b" missed ", record.missed);
    sheet.field(b" open ", u64::from(record.live));
}

fn window_text(sheet: &mut Sheet<'_>, record: Record)
    ensures { Puts sheet.old sheet.new (window_text «record») }
{
    sheet.field(b" window ", u64::from(window(record)));
    sheet.field(b" broken ", record.broken);
}

pub fn last(sheet: &mut Sheet<'_>, i: usize, record: Record)
    ensures { Puts sheet.old sheet.new (last_line i «record») }
{
    sheet.field(b"task ", i as u64);
    counts_text(sheet, record);
    window_text(sheet, record);
    sheet.words(b"\n");
}
