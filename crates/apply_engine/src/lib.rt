// Events applied to a state, by value: the code of what `apply_events` defines.
#![tactic(auto)]

mod acting;
pub mod apply;
pub mod log;
pub mod telling;
