// 50 tables and 2,000 events on each; now and then a state that is not sound is asked instead of the one that stands.
ghost use Rattle.std.specs.Prelude.{◌<◌};

use crate::dice::{next, pick};
use crate::events_of::{event, table};
use apply_engine::apply::apply;
use apply_events::Answer;
use lent_engine::apply::apply_of;
use state_rules::State;
use state_rules::fresh::start;
use table_rules::PLACES;
use task_steps::opening::no_record;

// seen: how often each refusal came, at its number; 16 for a chosen job and 17 for none.
#[derive(Clone, Copy)]
pub struct Walk {
    pub state: State,
    pub x: u64,
    pub same: bool,
    pub events: u64,
    pub seen: [u64; 18],
}

// The state as it stands, or one with a count, a clock or a record outside the rules.
fn spoilt(state: State, x: u64) -> State {
    let mut other = state;
    match pick(x, 64) {
        0 => other.count = 17,
        1 => other.count = 0,
        2 => other.clock = 1000000000001,
        3 => other.records[0].marks = u64::MAX,
        4 => other.records[0].met = u64::MAX,
        _ => {}
    }
    other
}

fn slot(said: Answer) -> usize
    ensures { result < 18 }
{
    match said {
        Ok(Some(_)) => 16,
        Ok(None) => 17,
        Err(refusal) => (refusal.number() % 16) as usize,
    }
}

impl Walk {
    // A fresh state of the next table; every table of the dice is accepted.
    fn begin(&mut self, seed: u64) {
        if let Ok(state) = start(table(seed)) {
            self.state = state;
        }
        self.x = seed;
    }

    fn step(&mut self) {
        self.x = next(self.x);
        let happens = event(self.state, self.x);
        let asked = spoilt(self.state, next(next(self.x)));
        let place = apply_of(asked, happens);
        self.same = apply(asked, happens) == place;
        let at = slot(place.answer);
        self.seen[at] = self.seen[at].saturating_add(1);
        self.state = apply(self.state, happens).state;
        self.events = self.events.saturating_add(1);
    }
}

// All events, or those up to the first difference.
pub fn all() -> Walk {
    let mut walk = Walk {
        state: State {
            count: 0,
            clock: 0,
            records: [no_record(); PLACES],
        },
        x: 0,
        same: true,
        events: 0,
        seen: [0; 18],
    };
    for n in 0..100000 {
        if n % 2000 == 0 {
            walk.begin(n / 2000);
        }
        walk.step();
        if !walk.same {
            return walk;
        }
    }
    walk
}
