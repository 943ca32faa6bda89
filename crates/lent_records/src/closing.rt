// Closing a job updates that task's record where it stands.
ghost use Rattle.std.specs.Prelude.{◌≡◌};
ghost use Rattle.task_records.specs.Closing.{closed};
ghost use Rattle.task_steps.specs.Opening.{expired};

use task_records::Record;
use task_records::closing::close;
use task_steps::opening::is_late;

pub fn close_in(of: &mut Record, met: bool)
    ensures { of.new ≡ closed of.old met }
{
    *of = close(*of, met);
}

// The same by value: its contract says nothing of a reference.
pub fn close_of(of: Record, met: bool) -> Record
    ensures { result ≡ closed of met }
{
    let mut one = of;
    close_in(&mut one, met);
    one
}

// Step 1 for one record: a late job is closed as missed.
#[tactic(auto, unfolding(task_steps::specs::Opening::expired))]
pub fn expire_in(of: &mut Record, time: u64)
    ensures { of.new ≡ expired of.old time }
{
    if is_late(*of, time) {
        close_in(of, false);
    }
}
