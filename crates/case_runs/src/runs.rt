// One table and one log: the answer to each event, and the tasks at the end.
use apply_engine::apply::apply;
use apply_events::Answer;
use state_rules::State;
use state_rules::fresh::state_in;
use std::io;
use task_records::Record;
use task_records::closing::window;

fn answer(rt: &impl Print, said: Answer) -> io::Result<()> {
    match said {
        Ok(Some(chosen)) => {
            let position = chosen.position;
            let class = chosen.class;
            print!(rt; " run {position} class {class}")
        }
        Ok(None) => print!(rt; " idle"),
        Err(refusal) => print!(rt; " refused {refusal}"),
    }
}

// The events one by one.
fn events_on(rt: &impl Print, first: State, log: &[u8]) -> io::Result<State> {
    let mut state = first;
    for i in 0..event_logs::count(log) {
        let Ok(Some(event)) = event_logs::event_at(log, i) else {
            return Ok(state);
        };
        let done = apply(state, event);
        answer(rt, done.answer)?;
        println!(rt; "")?;
        state = done.state;
    }
    Ok(state)
}

fn task(rt: &impl Print, record: Record) -> io::Result<()> {
    let met = record.met;
    let missed = record.missed;
    let open = u8::from(record.live);
    let class = task_levels::class(record.level);
    let run = record.run;
    print!(rt; " met {met} missed {missed} open {open} class {class} run {run}")?;
    let window = window(record);
    let broken = record.broken;
    println!(rt; " window {window} broken {broken}")
}

fn tasks(rt: &impl Print, state: State) -> io::Result<()> {
    for record in state.records.iter().take(state.count) {
        task(rt, *record)?;
    }
    Ok(())
}

// The log as a whole ends as its events one by one do.
fn whole(rt: &impl Print, state: State, log: &[u8]) -> io::Result<()> {
    print!(rt; "last")?;
    let ran = apply_engine::log::run(state, log);
    answer(rt, ran.answer)?;
    let clock = ran.state.clock;
    print!(rt; " clock {clock}")?;
    if let Err(stop) = ran.ending {
        print!(rt; " stop {stop}")?;
    }
    println!(rt; "")
}

// A refused table starts a state of no tasks, which is not sound.
pub fn one(rt: &impl Print, table: &[u8], log: &[u8]) -> io::Result<()> {
    let state = state_in(state_reading::begun(table));
    let last = events_on(rt, state, log)?;
    tasks(rt, last)?;
    whole(rt, state, log)
}
