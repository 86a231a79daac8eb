// The walk over the flags of a closed cell.
#![tactic(auto)]

pub mod walk;

use listing::limit;

// Of each rank: the place where it begins, and what its number in a flag counts for in a hash.
#[derive(Clone, Copy)]
pub struct Ranks {
    pub places: [usize; limit::RANKS],
    pub weights: [usize; limit::RANKS],
}
