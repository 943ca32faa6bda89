// The event itself, by the rule; what rule 1 keeps of the tasks is changed where it stands.
ghost use Rattle.std.specs.Prelude.{◌≡◌, ◌<◌};
ghost use Rattle.bench_events.specs.Made.{seat_of, tick_at, release_at, completion_at, chance_event, chance_cells};
ghost use Rattle.bench_events.specs.Made.{turn_event, once_event, made_event, made_cells};

use super::{Kept, Maker};
use bench_table::{count, spacing};
use event_reading::{COMPLETION, Event, RELEASE, TICK};
use table_rules::PLACES;

pub fn tick(time: u64) -> Event
    ensures { result ≡ tick_at time }
{
    Event {
        kind: TICK,
        task: 0,
        job: 0,
        time,
    }
}

pub fn release(task: u8, time: u64) -> Event
    ensures { result ≡ release_at task time }
{
    Event {
        kind: RELEASE,
        task,
        job: 0,
        time,
    }
}

pub fn completion(task: u8, job: u64, time: u64) -> Event
    ensures { result ≡ completion_at task job time }
{
    Event {
        kind: COMPLETION,
        task,
        job,
        time,
    }
}

#[tactic(auto, using(crate::proofs::Laws::seated))]
fn seat(maker: Maker) -> u8
    ensures { (result ≡ seat_of maker) × (result < 16) }
{
    let n = count(maker.tasks);
    (maker.x / 65536 % n) as u8
}

// Rule 1: the task's open job is completed, or a job is released, or there is a tick.
#[tactic(auto, unfolding(crate::specs::Made::chance_event, crate::specs::Made::chance_cells))]
fn by_chance(cells: &mut [Kept; PLACES], maker: Maker) -> Event
    ensures { (result ≡ chance_event cells.old maker) × (cells.new ≡ chance_cells cells.old maker) }
{
    let task = seat(maker);
    let time = maker.time;
    let kept = &mut cells[usize::from(task)];
    if time <= kept.due {
        kept.due = 0;
        return completion(task, kept.jobs, time);
    }
    if kept.free <= time {
        let due = time.wrapping_add(u64::from(spacing(maker.tasks, task)));
        *kept = Kept {
            due,
            free: due,
            jobs: kept.jobs.wrapping_add(1),
        };
        return release(task, time);
    }
    tick(time)
}

// Rule 2: the tasks in turn, a release and its completion.
#[tactic(auto, unfolding(crate::specs::Made::turn_event), using(crate::proofs::Laws::seated, crate::proofs::Laws::over))]
fn in_turn(maker: Maker, turn: u32) -> Event
    ensures { result ≡ turn_event maker turn }
{
    let n = count(maker.tasks);
    let pair = turn / 2;
    let task = (pair % n) as u8;
    if turn % 2 == 0 {
        release(task, maker.time)
    } else {
        completion(task, u64::from(pair / n) + 1, maker.time)
    }
}

// Rule 3: all tasks are released at one tick, and completed two at a tick.
#[tactic(auto, unfolding(crate::specs::Made::once_event), using(crate::proofs::Laws::over))]
fn at_once(maker: Maker, turn: u32) -> Event
    ensures { result ≡ once_event maker turn }
{
    let n = count(maker.tasks);
    let round = u64::from(turn / (2 * n));
    let k = turn % (2 * n);
    if k < n {
        release(k as u8, 32 * round)
    } else {
        let task = k - n;
        completion(task as u8, round + 1, 32 * round + u64::from(task / 2))
    }
}

#[tactic(auto, unfolding(crate::specs::Made::made_event, crate::specs::Made::made_cells))]
pub fn made(cells: &mut [Kept; PLACES], maker: Maker, turn: u32) -> Event
    ensures { (result ≡ made_event cells.old maker turn) × (cells.new ≡ made_cells cells.old maker turn) }
{
    match maker.rule {
        1 => by_chance(cells, maker),
        2 => in_turn(maker, turn),
        _ => at_once(maker, turn),
    }
}
