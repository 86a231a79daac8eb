// The text of a listing: how long it is, and its bytes written into a lent slice.
#![tactic(auto)]

pub mod length;
pub mod write;
