// The engine in place: an event applied to a row of records lent by `&mut`. Each function here is thin: proved functions on values decide.
#![tactic(auto)]

pub mod apply;
