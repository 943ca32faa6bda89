// The signed level of a task. No other code computes on signed numbers.
#![tactic(auto)]

ghost use Rattle.std.specs.Prelude.{◌≡◌};
ghost use Rattle.task_levels.specs.Level.{class_of, raised, lowest, level_holds};

pub fn class(level: i32) -> u32
    ensures { result ≡ class_of level }
{
    level.max(0) as u32
}

pub fn raise(level: i32, top: u8) -> i32
    ensures { result ≡ raised level top }
{
    level.saturating_add(1).min(i32::from(top))
}

pub fn low(h: u8) -> i32
    ensures { result ≡ lowest h }
{
    1 - i32::from(h)
}

pub fn within(level: i32, h: u8, top: u8) -> bool
    ensures { result ≡ level_holds level h top }
{
    low(h) <= level && level <= i32::from(top)
}
