// The sum of a run: what is answered, and then what each task has counted, folded into one number of 40 bits.
#![tactic(auto)]

ghost use Rattle.std.specs.Prelude.{◌≡◌, min};
ghost use Rattle.state_rules.specs.State.{as_started};
ghost use Rattle.apply_events.specs.Answer.{as_told};
ghost use Rattle.bench_sums.specs.Folds.{folded, answer_code, event_code, record_folded, records_folded};

use apply_events::Answer;
use event_reading::Event;
use state_rules::choice::places;
use state_rules::{State, fresh};
use table_rules::{PLACES, Refused};
use task_records::Record;

// 2^40.
const SPAN: u64 = 1099511627776;

pub fn fold(sum: u64, code: u64) -> u64
    ensures { result ≡ folded sum code }
{
    (3 * (sum % SPAN) + code % SPAN) % SPAN
}

pub fn fold_event(sum: u64, event: Event) -> u64
    ensures { result ≡ folded sum (event_code event) }
{
    fold(
        sum,
        event.kind as u64 + event.task as u64 + event.job % SPAN + event.time % SPAN,
    )
}

#[tactic(auto, using(crate::proofs::Laws::same_run))]
pub fn fold_answer(sum: u64, said: Answer) -> u64
    ensures { result ≡ folded sum (answer_code (as_told said)) }
{
    match said {
        // The remainder keeps the product within 64 bits and changes no sum.
        Ok(Some(chosen)) => fold(
            sum,
            64 * (chosen.position as u64 % SPAN) + chosen.class as u64,
        ),
        Ok(None) => fold(sum, 1024),
        Err(refusal) => fold(sum, 2048 + refusal.number() as u64),
    }
}

pub fn fold_record(sum: u64, of: Record) -> u64
    ensures { result ≡ record_folded sum of }
{
    let released = fold(sum, of.released);
    let met = fold(released, of.met);
    let missed = fold(met, of.missed);
    let marks = fold(missed, of.marks);
    fold(marks, of.broken)
}

#[tactic(auto, unfolding(crate::specs::Folds::records_folded))]
pub fn fold_records(sum: u64, records: [Record; PLACES], count: usize) -> u64
    ensures { result ≡ records_folded sum records (min count 16) }
{
    let mut folded = sum;
    for i in 0..places(count) {
        folded = fold_record(folded, records[i]);
    }
    folded
}

// The state that a table starts; where the table is refused, one of no tasks.
pub fn state_in(started: Result<State, Refused>) -> State
    ensures { result ≡ (as_started started).state }
{
    fresh::state_in(started)
}
