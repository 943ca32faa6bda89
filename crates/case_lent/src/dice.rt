// Numbers that look like chance: a linear congruential row, of which the upper bits are used.
ghost use Rattle.std.specs.Prelude.{◌<◌, ◌≤◌};

pub fn next(x: u64) -> u64 {
    ((x % 2147483648) * 1103515245 + 12345) % 2147483648
}

// One of 0 to n - 1.
pub fn pick(x: u64, n: u64) -> u64
    requires { 1 ≤ n }
    ensures { result < n }
{
    (x / 65536) % n
}
