// Whether one record is sound at a clock: the rules' clauses, on any record. No sum is made that could wrap.
#![tactic(auto)]

mod counts;

ghost use Rattle.std.specs.Prelude.{◌≡◌};
ghost use Rattle.task_soundness.specs.Sound.{run_holds, ranges_hold, open_holds, releases_hold, sound_holds};

use crate::counts::counts_hold;
use table_rules::Task;
use table_rules::rules::judge_task;
use task_levels::{class, within};
use task_records::Record;
use task_thresholds::{h, top, w};

fn run_holds(run: u32, w: u8, class: u32) -> bool
    ensures { result ≡ run_holds run w class }
{
    run <= u32::from(w.saturating_sub(1)) && (class != 0 || run == 0)
}

fn ranges_hold(of: Record) -> bool
    ensures { result ≡ ranges_hold of }
{
    let Task { m, k, .. } = of.task;
    within(of.level, h(m, k), top(m, k)) && run_holds(of.run, w(m, k), class(of.level))
}

fn open_holds(of: Record, clock: u64) -> bool
    ensures { result ≡ open_holds of clock }
{
    !of.live
        || (of.class == class(of.level) && clock.saturating_sub(u64::from(of.task.d)) <= of.last)
}

fn releases_hold(of: Record, clock: u64) -> bool
    ensures { result ≡ releases_hold of clock }
{
    of.last <= clock
        && (of.released != 0 || (!of.live && of.last == 0))
        && of.released.saturating_sub(1) <= of.last
}

#[tactic(auto, unfolding(crate::specs::Sound::sound_holds))]
pub fn sound(of: Record, clock: u64) -> bool
    ensures { result ≡ sound_holds of clock }
{
    judge_task(of.task).is_ok()
        && ranges_hold(of)
        && open_holds(of, clock)
        && releases_hold(of, clock)
        && counts_hold(of)
}
