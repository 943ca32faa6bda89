// Whether a record's counts agree, on any record: releases, met, missed and open, `broken` and the marks. No sum is made that could wrap.
ghost use Rattle.std.specs.Prelude.{◌≡◌, ◌+◌, ◌^◌, eqb, ltb};
ghost use Rattle.task_soundness.specs.Counts.{open_of, totals_hold, counts_hold};

use task_records::Record;

// Whether a word has no mark outside its lowest n places.
fn marks_within(marks: u64, n: u64) -> bool
    ensures { result ≡ ltb marks (2 ^ n) }
{
    64 <= n || marks < 1u64 << n
}

fn balance_holds(of: Record) -> bool
    ensures { result ≡ eqb of.released (of.met + of.missed + open_of of) }
{
    of.met <= of.released
        && of.missed <= of.released - of.met
        && of.released - of.met - of.missed == u64::from(of.live)
}

fn totals_hold(of: Record, closed: u64) -> bool
    ensures { result ≡ totals_hold of closed }
{
    of.broken <= closed && marks_within(of.marks, u64::from(of.task.k).min(closed))
}

pub fn counts_hold(of: Record) -> bool
    ensures { result ≡ counts_hold of }
{
    balance_holds(of) && totals_hold(of, of.met + of.missed)
}
