// What is decided of an event over a lent row, on values: its seat, and what is told.
ghost use Rattle.std.specs.Prelude.{◌≡◌, Ok};
ghost use Rattle.state_choice.specs.Best.{as_best};
ghost use Rattle.apply_events.specs.Answer.{as_told};
ghost use Rattle.apply_events.specs.Apply.{told_of};
ghost use Rattle.apply_ruling.specs.Ruling.{seat_of};

use apply_engine::telling::told;
use apply_events::Chosen;
use apply_ruling::judging::seat;
use event_reading::Event;
use state_choice::Best;
use task_records::Record;

// Where the event's task stands in a row of this length.
pub fn seat_of(event: Event, count: usize) -> usize
    ensures { result ≡ seat_of event.task count }
{
    seat(event.task, count)
}

// What is told once the row is settled: the chosen job's class is its record's.
pub fn told_of(best: Option<Best>, of: Record) -> Option<Chosen>
    ensures { as_told (Ok result) ≡ told_of (as_best best) of.class }
{
    told(best, of.class)
}
