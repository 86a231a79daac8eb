// Flags, as chains of elements from the lowest rank to the highest: whether numbers are a flag, and its change at one
// rank. The entries are those of the crates above.
#![tactic(auto)]

pub mod chain;
