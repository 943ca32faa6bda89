// The answer after an accepted event.
ghost use Rattle.std.specs.Prelude.{◌≡◌, Ok};
ghost use Rattle.apply_events.specs.Answer.{as_told};
ghost use Rattle.apply_events.specs.Apply.{told_of};
ghost use Rattle.state_choice.specs.Best.{as_best};

use apply_events::Chosen;
use state_choice::Best;

pub fn told(best: Option<Best>, class: u32) -> Option<Chosen>
    ensures { as_told (Ok result) ≡ told_of (as_best best) class }
{
    best.map(|b| Chosen {
        position: b.at,
        class,
    })
}
