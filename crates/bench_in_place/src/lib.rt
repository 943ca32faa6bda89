// The engine over a lent row, event by event: one row is held for the whole run, and the records of its tasks are lent at each event.
#![tactic(auto)]

ghost use Rattle.std.specs.Prelude.{◌≡◌, ◌≤◌};
ghost use Rattle.table_rules.specs.Limits.{place_count};
ghost use Rattle.apply_events.specs.Answer.{as_told};
ghost use Rattle.bench_sums.specs.Folds.{folded, answer_code};
ghost use Rattle.bench_sums.specs.Runs.{run_sum};

use bench_events::Maker;
use bench_events::made::made;
use bench_events::makers::{cells, drawn};
use bench_runs::apply_sum;
use bench_sums::{fold_answer, fold_records};
use lent_answers::Turn;
use lent_engine::apply::apply_in;
use state_rules::State;
use table_rules::PLACES;

pub fn fold_turn(sum: u64, turn: Turn) -> u64
    ensures { result ≡ folded sum (answer_code (as_told turn.answer)) }
{
    fold_answer(sum, turn.answer)
}

fn run_in(first: State, mut maker: Maker, events: u32) -> u64
    requires { first.count ≤ place_count }
    ensures { result ≡ run_sum first maker events }
{
    let State {
        count,
        mut clock,
        mut records,
    } = first;
    let mut kept = cells();
    let mut sum = 0;
    for i in 0..events {
        maker = drawn(maker);
        let event = made(&mut kept, maker, i);
        let turn = apply_in(&mut records[..count], clock, event);
        clock = turn.clock;
        sum = fold_turn(sum, turn);
    }
    fold_records(sum, records, count)
}

pub fn row_sum(first: State, maker: Maker, events: u32) -> u64
    ensures { result ≡ run_sum first maker events }
{
    // More tasks than places are never sound: no row is lent.
    if PLACES < first.count {
        return apply_sum(first, maker, events);
    }
    run_in(first, maker, events)
}
