// Applying a log: soundness is tested once, since every event keeps it.
ghost use Rattle.std.specs.Prelude.{◌≡◌, Ok};
ghost use Rattle.state_rules.specs.Sound.{StateSound};
ghost use Rattle.apply_events.specs.Answer.{as_told, as_ran};
ghost use Rattle.apply_events.specs.Apply.{answer_of};
ghost use Rattle.apply_events.specs.Log.{ran};

use super::acting::act;
use super::telling::told;
use apply_events::{Chosen, Ran};
use event_logs::{Stop, ended};
use event_reading::{EVENT_SIZE, read};
use refusals::Refusal;
use state_choice::place;
use state_rules::State;
use state_rules::choice::choose;
use state_rules::sound::is_sound;

// The choice as it stands, where no event has come.
fn stand(state: State) -> Option<Chosen>
    requires { StateSound state }
    ensures { as_told (Ok result) ≡ answer_of state }
{
    let best = choose(state);
    told(best, state.records[place(best)].class)
}

// The state after all events that read, the last answer, and what ended the reading.
pub fn run(mut state: State, log: &[u8]) -> Ran
    ensures { as_ran result ≡ ran state log.now }
{
    // Nothing is read for a state that is not sound.
    if !is_sound(state) {
        return Ran {
            answer: Err(Refusal::NotSound),
            state,
            ending: Err(Stop {
                refusal: Refusal::NotSound,
                offset: 0,
            }),
        };
    }
    let got = read(log);
    let Ok(Some(first)) = got else {
        return Ran {
            answer: Ok(stand(state)),
            state,
            ending: ended(got, 0),
        };
    };
    let mut answer = act(&mut state, first);
    let mut from = EVENT_SIZE;
    loop {
        let got = read(&log[from..]);
        let Ok(Some(event)) = got else {
            return Ran {
                answer,
                state,
                ending: ended(got, from),
            };
        };
        answer = act(&mut state, event);
        from += EVENT_SIZE;
    }
}
