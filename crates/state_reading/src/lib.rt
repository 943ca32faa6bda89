// The fresh state of the table that bytes read as.
#![tactic(auto)]

ghost use Rattle.std.specs.Prelude.{◌≡◌};
ghost use Rattle.table_reading.specs.Table.{read_table};
ghost use Rattle.state_rules.specs.State.{as_started, started_by};

use state_rules::State;
use state_rules::fresh::start;
use table_reading::table::read;
use table_rules::Refused;

pub fn begun(table: &[u8]) -> Result<State, Refused>
    ensures { as_started result ≡ started_by (read_table table.now).answer (read_table table.now).table }
{
    start(read(table)?)
}
