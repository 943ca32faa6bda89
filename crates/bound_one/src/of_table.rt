// One task's bound, asked of a table: the table's own refusal, then 10, then 13.
ghost use Rattle.std.specs.Prelude.{◌≡◌};
ghost use Rattle.bound_one.specs.Bound.{as_bound};
ghost use Rattle.bound_one.specs.Asked.{one_answer};

use bound_search::search::bound_in;
use refusals::Refusal;
use table_rules::rules::judge;
use table_rules::{Refused, Table};

#[tactic(auto, unfolding(crate::specs::Asked::one_answer))]
pub fn bound(table: Table, k: usize) -> Result<u32, Refused>
    ensures { as_bound result ≡ one_answer table k }
{
    judge(table)?;
    if table.count <= k {
        return Err(Refused {
            refusal: Refusal::NoTask,
            position: k,
        });
    }
    bound_in(table, k).ok_or(Refused {
        refusal: Refusal::NoBound,
        position: k,
    })
}
