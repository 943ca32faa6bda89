// The line of an event, put on a sheet.
#![tactic(auto)]

ghost use Rattle.apply_events.specs.Answer.{Run, as_told};
ghost use Rattle.text_writing.specs.Puts.{Puts};
ghost use Rattle.listing_text.specs.EventLines.{answer_text, event_line};

use apply_events::{Answer, Chosen};
use text_writing::Sheet;

fn run(sheet: &mut Sheet<'_>, chosen: Chosen)
    ensures { Puts sheet.old sheet.new (answer_text (Run chosen.position chosen.class)) }
{
    sheet.field(b" run ", chosen.position as u64);
    sheet.field(b" class ", u64::from(chosen.class));
}

fn answer_text(sheet: &mut Sheet<'_>, answer: Answer)
    ensures { Puts sheet.old sheet.new (answer_text (as_told answer)) }
{
    match answer {
        Ok(Some(chosen)) => run(sheet, chosen),
        Ok(None) => sheet.words(b" idle"),
        Err(refusal) => sheet.field(b" refused ", u64::from(refusal.number())),
    }
}

pub fn event(sheet: &mut Sheet<'_>, i: usize, answer: Answer)
    ensures { Puts sheet.old sheet.new (event_line i (as_told answer)) }
{
    sheet.field(b"event ", i as u64);
    answer_text(sheet, answer);
    sheet.words(b"\n");
}
