// Counting: one or none, and one more.
ghost use Rattle.std.specs.Prelude.{◌≡◌};
ghost use Rattle.laws.specs.Numbers.{one_if};
ghost use Rattle.task_marks.specs.Marks.{count_of};

// 1 where it holds, else 0.
pub fn one_if(holds: bool) -> u64
    ensures { result ≡ one_if holds }
{
    u64::from(holds)
}

// It stops at the end of 64 bits, so that no record makes a sum wrap.
pub fn next(count: u64) -> u64
    ensures { result ≡ count_of count }
{
    count.saturating_add(1)
}
