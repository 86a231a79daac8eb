// The sum over the even flags of a cell of rank 4 that makes six times its volume, on a cell whose flags are known.
#![tactic(auto)]

pub mod faces;
pub mod parts;
