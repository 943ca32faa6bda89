// All bounds, asked of a table: the table's own refusal, then 14, then 13. A refusal leaves the lent cells as they were.
ghost use Rattle.std.specs.Prelude.{◌≡◌, length};
ghost use Rattle.table_rules.specs.Answers.{Accepted, as_answer};
ghost use Rattle.table_rules.specs.Judging.{judged};
ghost use Rattle.bound_all.specs.Asked.{all_answer, all_cells};
ghost use Rattle.bound_all.specs.Row.{RowOf};

use bound_search::search::bound_in;
use refusals::Refusal;
use table_rules::rules::judge;
use table_rules::{PLACES, Refused, Table};

// All bounds at once, before any lent cell is written.
#[tactic(auto, using(crate::proofs::Copied::few, crate::proofs::Copied::found_at, laws::proofs::Stores::filled_below), unfolding(laws::specs::Stores::filled))]
fn row_of(table: Table) -> Result<[u32; PLACES], Refused>
    requires { judged table ≡ Accepted }
    ensures { RowOf table result }
{
    let mut cells = [0; PLACES];
    for i in 0..table.count {
        cells[i] = bound_in(table, i).ok_or(Refused {
            refusal: Refusal::NoBound,
            position: i,
        })?;
    }
    Ok(cells)
}

#[tactic(auto, using(crate::proofs::Copied::few, crate::proofs::Copied::copied, crate::proofs::Copied::front_length))]
pub fn all(table: Table, out: &mut [u32]) -> Result<(), Refused>
    ensures { (as_answer result ≡ all_answer table (length out.old)) × (out.new ≡ all_cells table out.old) }
{
    judge(table)?;
    if out.len() < table.count {
        return Err(Refused {
            refusal: Refusal::NoRoom,
            position: 0,
        });
    }
    let cells = row_of(table)?;
    out[..table.count].copy_from_slice(&cells[..table.count]);
    Ok(())
}
