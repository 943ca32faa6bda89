// Records that are lent: one by `&mut`, and a row by `&` or `&mut`. Each function here is thin: a proved function on values changes the record.
#![tactic(auto)]

pub mod choice;
pub mod closing;
pub mod expiry;
pub mod sound;
