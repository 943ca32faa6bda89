// The bounds of all tasks, folded by position.
ghost use Rattle.std.specs.Prelude.{◌≡◌, min};
ghost use Rattle.bound_one.specs.Bound.{as_bound};
ghost use Rattle.bound_one.specs.Answers.{bound_value};
ghost use Rattle.bench.specs.Asked.{bound_sum};

use bench_sums::fold;
use bound_one::of_table::bound;
use state_rules::choice::places;
use table_rules::{Refused, Table};

// 0 where there is none.
fn value(of: Result<u32, Refused>) -> u64
    ensures { result ≡ bound_value (as_bound of) }
{
    of.unwrap_or(0) as u64
}

#[tactic(auto, unfolding(crate::specs::Asked::bound_sum))]
pub fn sum(table: Table) -> u64
    ensures { result ≡ bound_sum table (min table.count 16) }
{
    let mut sum: u64 = 0;
    for k in 0..places(table.count) {
        sum = fold(sum, value(bound(table, k)));
    }
    sum
}
