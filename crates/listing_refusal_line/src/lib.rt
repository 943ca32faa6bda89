// The lines that say what was not listed, put on a sheet.
#![tactic(auto)]

ghost use Rattle.text_writing.specs.Puts.{Puts};
ghost use Rattle.listing_text.specs.RefusalLines.{too_long, found_at, refused_line, stop_line};

use text_writing::Sheet;

pub fn too_long(sheet: &mut Sheet<'_>)
    ensures { Puts sheet.old sheet.new too_long }
{
    sheet.words(b"input too long\n");
}

// A word, a refusal's number, and where it was found.
fn found_at(sheet: &mut Sheet<'_>, word: &[u8], number: u8, place: usize)
    ensures { Puts sheet.old sheet.new (found_at word.now number place) }
{
    sheet.field(word, u64::from(number));
    sheet.field(b" at ", place as u64);
    sheet.words(b"\n");
}

pub fn refused(sheet: &mut Sheet<'_>, number: u8, position: usize)
    ensures { Puts sheet.old sheet.new (refused_line number position) }
{
    found_at(sheet, b"table refused ", number, position);
}

pub fn stop(sheet: &mut Sheet<'_>, number: u8, offset: usize)
    ensures { Puts sheet.old sheet.new (stop_line number offset) }
{
    found_at(sheet, b"stop ", number, offset);
}
