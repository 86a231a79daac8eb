// One pair of two factors, written as an element of their product, and the pairs of one element with a whole rank.
#![tactic(auto)]

ghost use Rattle.listing.specs.Listing.{held};
ghost use Rattle.listing_sups.specs.Sups.{UpCounts};
ghost use Rattle.product_pairs.specs.Trimmed.{bit};

pub mod pair;

use listing::{Index, Slices};
use product_places::Poles;

// A factor: the counts of its ranks in use, its ends and its incidences; and how many elements lie over each in use.
#[derive(Clone, Copy)]
pub struct Factor<'a> {
    pub slices: Slices<'a>,
    pub sups: &'a [Index],
}

// The two factors of a product, with their sups counted, and which product it is. The first members of the pairs are
// of p.
#[derive(Clone, Copy)]
pub struct Factors<'a> {
    pub poles: Poles,
    pub p: Factor<'a>,
    pub q: Factor<'a>,
    ghost counted_p: { UpCounts (bit poles.min) (held p.slices) p.sups.now },
    ghost counted_q: { UpCounts (bit poles.min) (held q.slices) q.sups.now },
}
