// Sups that follow from subs: counted for each element, and filled in.
#![tactic(auto)]

pub mod sups;
