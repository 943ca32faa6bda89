// The engine over a lent row, for C callers: a library of its own, since another engine beside it changes what the compiler puts in line.
#![tactic(auto)]

ghost use Rattle.std.specs.Prelude.{◌≡◌};
ghost use Rattle.bench_sums.specs.Asked.{run_asked};

use bench_events::makers::{events, first, serves};
use bench_in_place::row_sum;
use bench_sums::state_in;
use bench_table::table;
use state_rules::fresh::start;

#[unsafe(no_mangle)]
pub extern "C" fn brumerola_bench_apply_in(tasks: u64, rule: u64, count: u64, seed: u64) -> u64
    ensures { result ≡ run_asked tasks rule count seed }
{
    if !serves(tasks, rule) {
        return 0;
    }
    let maker = first(tasks, rule, seed);
    let state = state_in(start(table(maker.tasks)));
    row_sum(state, maker, events(count))
}
