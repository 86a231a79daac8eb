// How many flags a closed listing has in all. There can be far more than any search has room for, so the count stops at
// one more than that.
#![tactic(auto)]

pub mod chains;
