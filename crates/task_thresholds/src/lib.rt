// The thresholds of the rules: w, h and top of (m, K), on every pair of bytes.
#![tactic(auto)]

ghost use Rattle.std.specs.Prelude.{◌≡◌};
ghost use Rattle.task_thresholds.specs.Thresholds.{w_of, h_of, top_of};

// A hard task's: m = 0.
const HARD_W: u8 = 0;

const HARD_H: u8 = 1;

const HARD_TOP: u8 = 0;

pub fn w(m: u8, k: u8) -> u8
    ensures { result ≡ w_of m k }
{
    if m == 0 {
        HARD_W
    } else if k <= m {
        1
    } else {
        (m / (k - m)).max(1)
    }
}

pub fn h(m: u8, k: u8) -> u8
    ensures { result ≡ h_of m k }
{
    if m == 0 {
        HARD_H
    } else {
        top(m, k).div_ceil(m)
    }
}

pub fn top(m: u8, k: u8) -> u8
    ensures { result ≡ top_of m k }
{
    if m == 0 {
        HARD_TOP
    } else {
        k.saturating_sub(m)
    }
}
