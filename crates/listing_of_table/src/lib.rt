// The listing of table bytes and the events behind them: the tasks, the events one by one, where the reading stopped, and the tasks again.
#![tactic(auto)]

ghost use Rattle.std.specs.Prelude.{◌≡◌};
ghost use Rattle.table_rules.specs.Answers.{Accepted};
ghost use Rattle.table_rules.specs.Judging.{judged};
ghost use Rattle.table_reading.specs.Table.{read_table};
ghost use Rattle.text_writing.specs.Puts.{Puts};
ghost use Rattle.listing_text.specs.Listing.{table_listing, listed};

use listing_log_lines::{each_event, stop};
use listing_table_lines::{ends, tasks};
use state_rules::fresh::start;
use table_rules::Table;
use text_writing::Sheet;

fn accepted(sheet: &mut Sheet<'_>, table: Table, log: &[u8])
    requires { judged table ≡ Accepted }
    ensures { Puts sheet.old sheet.new (table_listing table log.now) }
{
    tasks(sheet, table);
    let fresh = start(table).unwrap();
    let ended = each_event(sheet, fresh, log);
    stop(sheet, ended.ending);
    ends(sheet, ended.state, table.count);
}

// A refused table has one line only.
pub fn of_table(sheet: &mut Sheet<'_>, bytes: &[u8], log: &[u8])
    ensures { Puts sheet.old sheet.new (listed (read_table bytes.now) log.now) }
{
    match table_reading::table::read(bytes) {
        Ok(table) => accepted(sheet, table, log),
        Err(found) => {
            listing_refusal_line::refused(sheet, found.refusal.number(), found.position);
        }
    }
}
