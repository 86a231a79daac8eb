// Whether a number stands in a list of a listing.
#![tactic(auto)]

pub mod members;
