// Output slices that a caller lends for a listing.
#![tactic(auto)]

pub mod outputs;
