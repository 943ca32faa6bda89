// The search for a bound: R rises from the task's own cost by the recurrence and stops at the first fit.
ghost use Rattle.std.specs.Prelude.{◌≡◌, ◌*◌, ◌<◌, ◌≤◌};
ghost use Rattle.table_rules.specs.Limits.{longest_t};
ghost use Rattle.table_rules.specs.Answers.{Accepted};
ghost use Rattle.table_rules.specs.Judging.{judged};
ghost use Rattle.bound_demand.specs.Demand.{part_of};
ghost use Rattle.bound_search.specs.Fits.{first_fit};
ghost use Rattle.bound_demand.specs.Load.{load_demand, Ready};
ghost use Rattle.bound_search.specs.Bound.{bound_of};

use bound_demand::above::load_of;
use bound_demand::{Asked, Load};
use table_rules::Table;

#[tactic(auto, using(crate::proofs::Rounding::part_small, crate::proofs::Rounding::part_is))]
fn part_of(asked: Asked, r: u64) -> u64
    requires { (1 ≤ asked.spacing) × (r ≤ longest_t) }
    ensures { (result ≡ part_of asked.cost asked.spacing r) × (result ≤ longest_t * 4294967295) }
{
    r.div_ceil(u64::from(asked.spacing)) * u64::from(asked.cost)
}

#[tactic(auto, unfolding(laws::specs::Sums::total, bound_demand::specs::Load::load_demand))]
fn demand(load: &Load, r: u64) -> u64
    requires { (Ready load.now) × (r ≤ longest_t) }
    ensures { result ≡ load_demand load.now r }
{
    let mut sum = u64::from(load.own);
    for asked in &load.above[..load.count] {
        sum += part_of(*asked, r);
    }
    sum
}

fn search(load: &Load, deadline: u32) -> Option<u32>
    requires { (Ready load.now) × (deadline ≤ longest_t) }
    ensures { result ≡ first_fit (load_demand load.now) deadline }
{
    let limit = u64::from(deadline);
    let mut r = u64::from(load.own);
    loop {
        if limit < r {
            break None;
        }
        let next = demand(load, r);
        if next <= r {
            break Some(r as u32);
        }
        r = next;
    }
}

// For callers that have judged the table.
#[tactic(auto, using(bound_demand::proofs::Obeyed::few))]
pub fn bound_in(table: Table, k: usize) -> Option<u32>
    requires { (judged table ≡ Accepted) × (k < table.count) }
    ensures { result ≡ bound_of table k }
{
    search(&load_of(table, k), table.tasks[k].d)
}
