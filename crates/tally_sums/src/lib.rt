// Two tallies of one task joined into one: 15, then 16; what is refused leaves the first tally as given.
#![tactic(auto)]

ghost use Rattle.std.specs.Prelude.{◌≡◌, cond};
ghost use Rattle.tally_rules.specs.Tally.{cell_count};
ghost use Rattle.tally_rules.specs.Sound.{TallySound};
ghost use Rattle.tally_rules.specs.Answer.{as_tallied};
ghost use Rattle.tally_rules.specs.Adding.{accepted, kept};
ghost use Rattle.tally_sums.specs.Joining.{wider, both_to, both, sums_within, joined_sound, joined};

use refusals::Refusal;
use tally_rules::soundness::is_sound;
use tally_rules::{CELLS, MOST_TALLIED, Span, Tally};

// What is absent adds nothing.
fn widest(a: Option<Span>, b: Option<Span>) -> Option<Span>
    ensures { result ≡ wider a b }
{
    let (Some(near), Some(far)) = (a, b) else {
        return a.or(b);
    };
    Some(Span {
        least: near.least.min(far.least),
        most: near.most.max(far.most),
    })
}

// The numbers of both beside the cells of the first.
#[tactic(auto, using(tally_rules::proofs::Telling::met_few), unfolding(laws::specs::Stores::filled))]
fn numbers(a: Tally, b: Tally) -> Tally
    requires { (TallySound a) × (TallySound b) }
    ensures { result ≡ both_to a b 0 }
{
    Tally {
        met: a.met + b.met,
        span: widest(a.span, b.span),
        sum: a.sum + b.sum,
        ..a
    }
}

// 16 at the first cell that passes the limit.
fn join_cells(a: Tally, b: Tally) -> Result<Tally, Refusal>
    requires { (TallySound a) × (TallySound b) }
    ensures { as_tallied a result ≡ cond (sums_within a b cell_count) (accepted (both a b)) (kept a 16) }
{
    let mut tally = numbers(a, b);
    for c in 0..CELLS {
        let joint = a.cells[c] + b.cells[c];
        if MOST_TALLIED < joint {
            return Err(Refusal::NoFit);
        }
        tally.cells[c] = joint;
    }
    Ok(tally)
}

// Of two tallies that are known to be sound, so that no sum wraps.
fn join_sound(a: Tally, b: Tally) -> Result<Tally, Refusal>
    requires { (TallySound a) × (TallySound b) }
    ensures { as_tallied a result ≡ joined_sound a b }
{
    if a.d != b.d || MOST_TALLIED < a.sum + b.sum {
        return Err(Refusal::NoFit);
    }
    join_cells(a, b)
}

#[tactic(auto, unfolding(crate::specs::Joining::joined))]
pub fn join(a: Tally, b: Tally) -> Result<Tally, Refusal>
    ensures { as_tallied a result ≡ joined a b }
{
    if !is_sound(a) || !is_sound(b) {
        return Err(Refusal::NotSound);
    }
    join_sound(a, b)
}
