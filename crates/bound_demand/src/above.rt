// The tasks above a task, gathered for the search: the order, the cost and the spacing are looked at here and nowhere else.
ghost use Rattle.std.specs.Prelude.{◌≡◌};
ghost use Rattle.bound_demand.specs.Above.{higher};
ghost use Rattle.bound_demand.specs.Load.{asked_of, load_at};

use super::{Asked, Load};
use table_rules::{MOST_TASKS, PLACES, Table, Task};

// A place with no task above.
const NONE: Asked = Asked {
    cost: 0,
    spacing: 0,
};

impl From<Task> for Asked {
    ghost from_gives = { λ task asked. asked ≡ asked_of task };

    fn from(task: Task) -> Asked {
        Asked {
            cost: task.c,
            spacing: task.t,
        }
    }
}

// Smaller D, or equal D and smaller position.
fn is_above(a: Task, i: usize, b: Task, k: usize) -> bool
    ensures { result ≡ higher a i b k }
{
    a.d < b.d || (a.d == b.d && i < k)
}

// All zeros where the table has too many tasks, or no task at k.
#[tactic(auto, unfolding(crate::specs::Load::load_at, crate::specs::Load::row_to, laws::specs::Sums::total))]
pub fn load_of(table: Table, k: usize) -> Load
    ensures { result ≡ load_at table k }
{
    if MOST_TASKS < table.count || table.count <= k {
        return Load {
            own: 0,
            count: 0,
            above: [NONE; PLACES],
        };
    }
    let own = table.tasks[k];
    let mut above = [NONE; PLACES];
    let mut count = 0;
    for (i, task) in table.tasks[..table.count].iter().enumerate() {
        if is_above(*task, i, own, k) {
            above[count] = Asked::from(*task);
            count += 1;
        }
    }
    Load {
        own: Asked::from(own).cost,
        count,
        above,
    }
}
