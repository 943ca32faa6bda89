// What a rule keeps from event to event.
ghost use Rattle.std.specs.Prelude.{◌≡◌, replicate};
ghost use Rattle.table_rules.specs.Limits.{place_count};
ghost use Rattle.bench_events.specs.Maker.{served, events_of, narrow_of, first_of, drawn_of};
ghost use Rattle.bench_events.specs.Made.{none_kept};

use super::{Kept, Maker};
use bench_table::count;
use table_rules::PLACES;

// 1 to 16 tasks and rule 1 to 3.
pub fn serves(tasks: u64, rule: u64) -> bool
    ensures { result ≡ served tasks rule }
{
    (1..=16).contains(&tasks) && (1..=3).contains(&rule)
}

// A count of events is cut at 10^9.
pub fn events(count: u64) -> u32
    ensures { result ≡ events_of count }
{
    count.min(1000000000) as u32
}

// At most the greatest number of 32 bits.
fn narrow(x: u64) -> u32
    ensures { result ≡ narrow_of x }
{
    u32::try_from(x).unwrap_or(u32::MAX)
}

pub fn first(tasks: u64, rule: u64, seed: u64) -> Maker
    ensures { result ≡ first_of tasks rule seed }
{
    let n = count(narrow(tasks));
    Maker {
        tasks: n,
        rule: narrow(rule),
        spread: 16 / n,
        x: (seed % 2147483648) as u32,
        time: 0,
    }
}

pub fn cells() -> [Kept; PLACES]
    ensures { result ≡ replicate place_count none_kept }
{
    [Kept::default(); PLACES]
}

// Before an event: chance and time go on.
#[tactic(auto, unfolding(crate::specs::Maker::drawn_of), using(crate::proofs::Laws::spreads))]
pub fn drawn(maker: Maker) -> Maker
    ensures { result ≡ drawn_of maker }
{
    let spread = u64::from(maker.spread);
    match maker.rule {
        1 => {
            let x = (1103515245 * u64::from(maker.x) + 12345) % 2147483648;
            Maker {
                x: x as u32,
                time: maker.time.wrapping_add(x / 4096 % 4 * spread),
                ..maker
            }
        }
        2 => Maker {
            time: maker.time.wrapping_add(spread),
            ..maker
        },
        _ => maker,
    }
}
