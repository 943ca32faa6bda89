// The tallies of a log: 15, then 16, and then the state and the tallies after all events that read.
ghost use Rattle.std.specs.Prelude.{◌≡◌, ◌≤◌, cond, OnOk, Ok, Err};
ghost use Rattle.refusals.specs.declared.Refusal.TheVariants.{NoFit};
ghost use Rattle.state_rules.specs.Sound.{StateSound};
ghost use Rattle.table_rules.specs.Limits.{place_count};
ghost use Rattle.apply_events.specs.Steps.{expired_all};
ghost use Rattle.apply_events.specs.Apply.{moved, applied};
ghost use Rattle.tally_histories.specs.Answer.{as_reported};
ghost use Rattle.tally_histories.specs.Events.{tallied, admits};
ghost use Rattle.tally_histories.specs.Sound.{TalliesSound, Beside};
ghost use Rattle.tally_histories.specs.Report.{tally_log, reported};

use super::beside::beside;
use apply_ruling::judging::{rule, seat};
use event_logs::ended;
use event_reading::{COMPLETION, EVENT_SIZE, Event, read};
use refusals::Refusal;
use state_rules::State;
use tally_histories::Reported;
use tally_rules::Tallies;
use tally_rules::adding::put_in;
use task_records::closing::close;
use task_steps::opening::is_late;

// Step 1 on every task. A tally asks for no choice.
fn expire_all(state: &mut State, time: u64)
    requires { state.old.count ≤ place_count }
    ensures { state.new ≡ moved state.old state.old.clock (expired_all state.old time) }
{
    for i in 0..state.count {
        if is_late(state.records[i], time) {
            state.records[i] = close(state.records[i], false);
        }
    }
}

// One event, carried out in place. If it closes a job as met, the job's response goes into its task's tally first.
fn tally(state: &mut State, tallies: &mut Tallies, event: Event) -> Result<(), Refusal>
    requires { (StateSound state.old) × (TalliesSound tallies.old state.old.count) }
    ensures fault { result ≡ cond (admits state.old tallies.old event) (Ok tt) (Err NoFit) }
    ensures state { OnOk result (state.new ≡ (applied state.old event).state) }
    ensures tallies { OnOk result ((tallies.new ≡ tallied state.old tallies.old event) × TalliesSound tallies.new state.old.count) }
{
    let at = seat(event.task, state.count);
    let Ok(after) = rule(state.clock, state.count, state.records[at], event) else {
        return Ok(());
    };
    if event.kind == COMPLETION {
        tallies.row[at] = put_in(tallies.row[at], event.time - state.records[at].last)?;
    }
    state.clock = event.time;
    state.records[at] = after;
    expire_all(state, event.time);
    Ok(())
}

// One addition that does not fit refuses the report.
fn tally_log(mut state: State, mut tallies: Tallies, log: &[u8]) -> Result<Reported, Refusal>
    requires { Beside state tallies }
    ensures { as_reported state tallies result ≡ tally_log state tallies log.now }
{
    let mut from = 0;
    loop {
        let got = read(&log[from..]);
        let Ok(Some(event)) = got else {
            return Ok(Reported {
                state,
                tallies,
                ending: ended(got, from),
            });
        };
        tally(&mut state, &mut tallies, event)?;
        from += EVENT_SIZE;
    }
}

pub fn run(state: State, tallies: Tallies, log: &[u8]) -> Result<Reported, Refusal>
    ensures { as_reported state tallies result ≡ reported state tallies log.now }
{
    beside(state, tallies)?;
    tally_log(state, tallies, log)
}
