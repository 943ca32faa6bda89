// Applying an event: 15 before all. A refused event returns the state as given.
ghost use Rattle.std.specs.Prelude.{◌≡◌};
ghost use Rattle.apply_events.specs.Answer.{as_applied};
ghost use Rattle.apply_events.specs.Apply.{applied};

use super::acting::act;
use apply_events::Applied;
use event_reading::Event;
use refusals::Refusal;
use state_rules::State;
use state_rules::sound::is_sound;

pub fn apply(mut state: State, event: Event) -> Applied
    ensures { as_applied result ≡ applied state event }
{
    let answer = if is_sound(state) {
        act(&mut state, event)
    } else {
        Err(Refusal::NotSound)
    };
    Applied { answer, state }
}
