// One line per task, of a table and of a state: all lines of a kind put on a sheet.
#![tactic(auto)]

ghost use Rattle.std.specs.Prelude.{min};
ghost use Rattle.table_rules.specs.Limits.{place_count};
ghost use Rattle.text_writing.specs.Puts.{Puts};
ghost use Rattle.listing_text.specs.TableLines.{task_lines, last_lines};

use bound_one::of_table::bound;
use state_rules::State;
use table_rules::{PLACES, Table};
use text_writing::Sheet;

// One line per task, with its bound.
pub fn tasks(sheet: &mut Sheet<'_>, table: Table)
    ensures { Puts sheet.old sheet.new (task_lines table (min table.count place_count)) }
{
    for i in 0..table.count.min(PLACES) {
        let found = bound(table, i);
        listing_first_line::task(sheet, i, table.tasks[i], found);
    }
}

// One line per task, as the events have left it.
pub fn ends(sheet: &mut Sheet<'_>, state: State, count: usize)
    ensures { Puts sheet.old sheet.new (last_lines state (min count place_count)) }
{
    for i in 0..count.min(PLACES) {
        listing_last_line::last(sheet, i, state.records[i]);
    }
}
