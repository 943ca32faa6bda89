// Step 1 of an event over a lent row: every late job is closed where it stands.
ghost use Rattle.std.specs.Prelude.{◌≡◌};
ghost use Rattle.lent_records.specs.Expiry.{expired_row};

use super::closing::expire_in;
use task_records::Record;

#[tactic(auto, unfolding(laws::specs::Stores::filled), using(crate::proofs::Expired::one_passed))]
pub fn expire_all_in(row: &mut [Record], time: u64)
    ensures { row.new ≡ expired_row row.old time }
{
    for record in row.iter_mut() {
        expire_in(record, time);
    }
}
