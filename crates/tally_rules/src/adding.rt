// One response more: 15, then 16; what is refused leaves the tally as given.
ghost use Rattle.std.specs.Prelude.{◌≡◌};
ghost use Rattle.tally_rules.specs.Tally.{cell_of, widened};
ghost use Rattle.tally_rules.specs.Sound.{TallySound};
ghost use Rattle.tally_rules.specs.Answer.{as_tallied};
ghost use Rattle.tally_rules.specs.Adding.{put_in, added};

use super::soundness::is_sound;
use super::{CELLS, MOST_TALLIED, Span, Tally};
use refusals::Refusal;

// The cell of a response. In 64 bits the product of any two 32-bit numbers is exact.
fn cell_of(d: u32, r: u32) -> usize
    ensures { result ≡ cell_of d r }
{
    (CELLS as u64 * u64::from(r) / (u64::from(d) + 1)) as usize
}

fn widen(span: Option<Span>, r: u32) -> Option<Span>
    ensures { result ≡ widened span r }
{
    let Some(Span { least, most }) = span else {
        return Some(Span { least: r, most: r });
    };
    Some(Span {
        least: least.min(r),
        most: most.max(r),
    })
}

// Of a tally that is known to be sound. The response is any number, so it is held to D before anything is computed of it.
#[tactic(auto, using(crate::proofs::Telling::met_few), unfolding(crate::specs::Tally::taken))]
pub fn put_in(tally: Tally, r: u64) -> Result<Tally, Refusal>
    requires { TallySound tally }
    ensures { as_tallied tally result ≡ put_in tally r }
{
    if u64::from(tally.d) < r {
        return Err(Refusal::NoFit);
    }
    let cell = cell_of(tally.d, r as u32);
    if MOST_TALLIED <= tally.cells[cell] || MOST_TALLIED - r < tally.sum {
        return Err(Refusal::NoFit);
    }
    let mut cells = tally.cells;
    cells[cell] += 1;
    Ok(Tally {
        cells,
        met: tally.met + 1,
        span: widen(tally.span, r as u32),
        sum: tally.sum + r,
        ..tally
    })
}

#[tactic(auto, using(crate::proofs::Telling::holds_sound), unfolding(crate::specs::Adding::added))]
pub fn add(tally: Tally, r: u64) -> Result<Tally, Refusal>
    ensures { as_tallied tally result ≡ added tally r }
{
    if !is_sound(tally) {
        return Err(Refusal::NotSound);
    }
    put_in(tally, r)
}
