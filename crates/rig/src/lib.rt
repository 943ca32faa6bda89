// The bench rig: one function for C callers, over table bytes and log bytes. include/brumerola.h declares it.
#![tactic(auto)]

ghost use Rattle.std.specs.Prelude.{◌≡◌};
ghost use Rattle.rig_codes.specs.Code.{code_of};

use event_logs::MOST_BYTES;
use rig_log_code::{log_code, refusal};
use state_reading::begun;

#[unsafe(no_mangle)]
pub extern "C" fn brumerola_choice(table: &[u8], log: &[u8]) -> u32
    ensures { result ≡ code_of table.now log.now }
{
    if MOST_BYTES < log.len() {
        return 64;
    }
    match begun(table) {
        Ok(state) => log_code(state, log),
        Err(refused) => refusal(refused.refusal.number()),
    }
}
