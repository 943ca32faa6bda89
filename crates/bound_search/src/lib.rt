// The response bound of the rules: the search for the smallest R whose demand is at most R.
#![tactic(auto)]

pub mod search;
