// The product of two factors, written into lent slices.
// Output slices stay parameters of their own: a struct of them would need a clause on each of its parts everywhere.
ghost use Rattle.std.specs.Prelude.{◌≡◌, suc, ◌+◌, ◌*◌, ◌≤◌, ◌<◌, length};
ghost use Rattle.listing.specs.Listing.{width, limits, held};
ghost use Rattle.listing.specs.Laid.{Laid, LaidList};
ghost use Rattle.order.specs.Lists.{over};
ghost use Rattle.product_places.specs.Places.{pairs_in, pairs_to};
ghost use Rattle.product_element.specs.Pairs.{size_of, Plan};
ghost use Rattle.product_building.specs.Built.{counts_of, product_listing};

use listing::{Index, Slices, limit};
use listing_sups::sups;
use product_element::{Factor, Factors};
use product_places::{Poles, block, put};
use product_writing::pairs;

// Writes the number of pairs of each of n ranks, from place `at` on. Returns the place after the last.
#[tactic(auto, using(product_places::proofs::Numbers::pairs_fit))]
fn put_sizes(counts: &mut [Index], at: usize, p: &[Index], q: &[Index], n: usize) -> usize
    requires { (at + n ≤ length counts.old) × (n ≤ 2 * limits.ranks) × (pairs_to p.now q.now n < width) }
    ensures value { result ≡ at + n }
    ensures laid { Laid at (λ k. pairs_in p.now q.now k (suc k)) n
        counts.old counts.new }
{
    for k in 0..n {
        counts[at + k] = block::pairs_in(p, q, k, k + 1) as Index;
    }
    at + n
}

// Writes how many elements the product has of each rank. Returns the number of ranks.
#[tactic(auto, using(crate::proofs::CountsLaid::counts_length), unfolding(product_element::specs::Pairs::size_of))]
fn put_counts(poles: Poles, p: &[Index], q: &[Index], counts: &mut [Index]) -> usize
    requires p_nonzero { (0 < length p.now) × (length p.now ≤ limits.ranks) × (0 < length q.now)
        × (length q.now ≤ limits.ranks) }
    requires q_bound { size_of poles.min poles.max p.now q.now ≤ limits.elements }
    requires q_in_bounds { length (counts_of poles.min poles.max p.now q.now) ≤ length counts.old }
    ensures value { result ≡ length (counts_of poles.min poles.max p.now q.now) }
    ensures laid_list { LaidList 0 (counts_of poles.min poles.max p.now q.now)
        counts.old counts.new }
{
    let a = put::put_if(&mut *counts, 0, poles.min, 1);
    let b = put_sizes(&mut *counts, a, p, q, p.len() + q.len() - 1);
    put::put_if(&mut *counts, b, poles.max, 1)
}

// Writes the product of two factors: its counts, its ends and its incidences. Each factor is given with the counts of
// its ranks in use.
pub fn build(
    poles: Poles,
    p: Slices<'_>,
    q: Slices<'_>,
    counts: &mut [Index],
    ends: &mut [Index],
    inc: &mut [Index],
)
    requires plan { Plan poles.min poles.max (held p) (held q) (length ends.old) (length inc.old) }
    requires qinc_in_bounds { length (product_listing poles (held p) (held q)).counts ≤ length counts.old }
    ensures counts_after { counts.new ≡ over (product_listing poles (held p.entry) (held q.entry)).counts counts.old }
    ensures ends_after { ends.new ≡ over (product_listing poles (held p.entry) (held q.entry)).ends ends.old }
    ensures inc_after { inc.new ≡ over (product_listing poles (held p.entry) (held q.entry)).inc inc.old }
{
    let base = usize::from(poles.min);
    let mut psups: [Index; limit::ELEMENTS] = [0; limit::ELEMENTS];
    sups::tally(&mut psups, p, base);
    let mut qsups: [Index; limit::ELEMENTS] = [0; limit::ELEMENTS];
    sups::tally(&mut qsups, q, base);
    let factors = Factors {
        poles,
        p: Factor {
            slices: p,
            sups: &psups,
        },
        q: Factor {
            slices: q,
            sups: &qsups,
        },
    };
    let ranks = put_counts(poles, p.counts, q.counts, &mut *counts);
    let n = pairs::put_elements(factors, &mut *ends, &mut *inc);
    sups::fill(&counts[..ranks], &ends[..2 * n], &mut *inc);
}
