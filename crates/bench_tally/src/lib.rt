// The report over a log, for C callers: a library of its own, since another engine beside it changes what the compiler puts in line.
#![tactic(auto)]

mod chunks;
mod folds;

ghost use Rattle.std.specs.Prelude.{◌≡◌, ◌+◌};
ghost use Rattle.refusals.specs.Numbers.{number_of};
ghost use Rattle.bench_tally.specs.Asked.{tally_asked};

use chunks::carry;
use folds::fold_report;
use refusals::Refusal;
use state_reading::begun;
use tally_runs::fresh::fresh_of;

// A refusal is told by its number alone.
fn refused(refusal: Refusal) -> u64
    ensures { result ≡ 2048 + number_of refusal }
{
    2048 + u64::from(refusal.number())
}

// A log of bytes, from the table's fresh state and fresh tallies.
#[unsafe(no_mangle)]
pub extern "C" fn brumerola_bench_tally(table: &[u8], log: &[u8]) -> u64
    ensures { result ≡ tally_asked table.now log.now }
{
    let state = match begun(table) {
        Ok(state) => state,
        Err(why) => return refused(why.refusal),
    };
    match carry(state, fresh_of(state), log) {
        Ok(report) => fold_report(report),
        Err(refusal) => refused(refusal),
    }
}
