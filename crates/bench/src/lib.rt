// The bench: functions for C callers whose answers are compared with the rivals', and whose calls are timed.
#![tactic(auto)]

mod bounds;

ghost use Rattle.std.specs.Prelude.{◌≡◌, length};
ghost use Rattle.listing_of_input.specs.Lent.{list_answer, listed_into};
ghost use Rattle.bench_sums.specs.Asked.{rule_asked, run_asked};
ghost use Rattle.bench.specs.Asked.{log_asked, bounds_asked, list_number};

use bench_events::makers::{events, first, serves};
use bench_runs::{apply_sum, rule_sum};
use bench_sums::{fold_answer, fold_records, state_in};
use bench_table::table;
use listing_of_input::list;
use state_rules::fresh::start;
use table_reading::table::table_in;

// The events of a rule alone.
#[unsafe(no_mangle)]
pub extern "C" fn brumerola_bench_rule(tasks: u64, rule: u64, count: u64, seed: u64) -> u64
    ensures { result ≡ rule_asked tasks rule count seed }
{
    if !serves(tasks, rule) {
        return 0;
    }
    rule_sum(first(tasks, rule, seed), events(count))
}

// The engine by value.
#[unsafe(no_mangle)]
pub extern "C" fn brumerola_bench_apply(tasks: u64, rule: u64, count: u64, seed: u64) -> u64
    ensures { result ≡ run_asked tasks rule count seed }
{
    if !serves(tasks, rule) {
        return 0;
    }
    let maker = first(tasks, rule, seed);
    let state = state_in(start(table(maker.tasks)));
    apply_sum(state, maker, events(count))
}

// A log of bytes, from the table's fresh state.
#[unsafe(no_mangle)]
pub extern "C" fn brumerola_bench_log(table: &[u8], log: &[u8]) -> u64
    ensures { result ≡ log_asked table.now log.now }
{
    match table_reading::table::read(table) {
        Ok(read) => {
            let state = state_in(start(read));
            let ran = apply_engine::log::run(state, log);
            fold_records(
                fold_answer(0, ran.answer),
                ran.state.records,
                ran.state.count,
            )
        }
        Err(refused) => 2048 + refused.refusal.number() as u64,
    }
}

// All bounds of a table of bytes, one by one.
#[tactic(auto, unfolding(crate::specs::Asked::bound_sum))]
#[unsafe(no_mangle)]
pub extern "C" fn brumerola_bench_bounds(table: &[u8]) -> u64
    ensures { result ≡ bounds_asked table.now }
{
    bounds::sum(table_in(table_reading::table::read(table)))
}

// The listing of an input: its bytes, or 2^40 where it is refused.
#[unsafe(no_mangle)]
pub extern "C" fn brumerola_bench_list(input: &[u8], out: &mut [u8]) -> u64
    ensures { (result ≡ list_number (list_answer input.now (length out.old)))
        × (out.new ≡ listed_into input.now out.old) }
{
    match list(input, out) {
        Ok(n) => n as u64,
        Err(_) => 1099511627776,
    }
}
