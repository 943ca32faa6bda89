// Runs of the bench, event by event: the events alone, and the engine by value over them.
#![tactic(auto)]

ghost use Rattle.std.specs.Prelude.{◌≡◌};
ghost use Rattle.bench_sums.specs.Runs.{event_sum, run_sum};

use apply_engine::apply::apply;
use bench_events::Maker;
use bench_events::made::made;
use bench_events::makers::{cells, drawn};
use bench_sums::{fold_answer, fold_event, fold_records};
use state_rules::State;

pub fn rule_sum(maker: Maker, events: u32) -> u64
    ensures { result ≡ event_sum maker events }
{
    let mut kept = cells();
    let mut next = maker;
    let mut sum: u64 = 0;
    for i in 0..events {
        next = drawn(next);
        sum = fold_event(sum, made(&mut kept, next, i));
    }
    sum
}

pub fn apply_sum(first: State, maker: Maker, events: u32) -> u64
    ensures { result ≡ run_sum first maker events }
{
    let mut state = first;
    let mut kept = cells();
    let mut next = maker;
    let mut sum: u64 = 0;
    for i in 0..events {
        next = drawn(next);
        // The state goes back in where it stands: no copy but the engine's own.
        let done = apply(state, made(&mut kept, next, i));
        state = done.state;
        sum = fold_answer(sum, done.answer);
    }
    fold_records(sum, state.records, state.count)
}
