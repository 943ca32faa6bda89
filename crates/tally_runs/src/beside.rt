// What is asked before a log is read: a sound state, sound tallies of its tasks, and each with its task's D.
ghost use Rattle.std.specs.Prelude.{◌≡◌, ◌≤◌};
ghost use Rattle.refusals.specs.Numbers.{fault_in};
ghost use Rattle.table_rules.specs.Limits.{place_count};
ghost use Rattle.tally_histories.specs.Sound.{tallies_hold, carried_by};
ghost use Rattle.tally_histories.specs.Report.{fault_beside};

use refusals::Refusal;
use state_rules::State;
use state_rules::sound::is_sound;
use tally_rules::Tallies;

fn tallies_hold(tallies: Tallies, count: usize) -> bool
    requires { count ≤ place_count }
    ensures { result ≡ tallies_hold tallies count }
{
    tallies.row[..count]
        .iter()
        .all(|tally| tally_rules::soundness::is_sound(*tally))
}

fn carried(state: State, tallies: Tallies) -> bool
    requires { state.count ≤ place_count }
    ensures { result ≡ carried_by state tallies state.count }
{
    tallies.row[..state.count]
        .iter()
        .zip(&state.records)
        .all(|(tally, record)| tally.d == record.task.d)
}

// 15 before 16.
#[tactic(auto, unfolding(tally_histories::specs::Report::fault_beside))]
pub fn beside(state: State, tallies: Tallies) -> Result<(), Refusal>
    ensures { fault_in result ≡ fault_beside state tallies }
{
    if !is_sound(state) || !tallies_hold(tallies, state.count) {
        return Err(Refusal::NotSound);
    }
    if !carried(state, tallies) {
        return Err(Refusal::NoFit);
    }
    Ok(())
}
