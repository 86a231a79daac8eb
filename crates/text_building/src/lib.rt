// Writing layers that have been noted down as a listing, into lent slices.
#![tactic(auto)]

pub mod build;
