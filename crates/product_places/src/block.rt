// Where pairs stand: how many come before them, and what all pairs of two ranks have in common.
ghost use Rattle.std.specs.Prelude.{◌≡◌, cond, ◌&&◌, ◌+◌, ◌*◌, ◌≤◌, ◌<◌, eqb, length};
ghost use Rattle.listing.specs.Listing.{width, limits};
ghost use Rattle.product_pairs.specs.Trimmed.{bit};
ghost use Rattle.product_places.specs.Places.{pairs_in, offset_in, pairs_to};
ghost use Rattle.product_places.specs.Blocks.{BlockOf};

use crate::Poles;
use listing::{Index, reading};

// The pairs of the elements of two ranks.
#[derive(Clone, Copy)]
pub struct Block {
    // the ranks: of the first factor, and of the second
    pub i: usize,
    pub j: usize,
    // the number of each factor's first element in use
    pub base: usize,
    // the number of the first pair
    pub from: usize,
    // whether the added minimal element lies under the pairs, and it alone: a yes or no beside numbers that are there
    // either way
    pub low: bool,
    // how many added elements lie over each pair
    pub cap: usize,
    // the elements in use before each rank
    pub pbefore: usize,
    pub qbefore: usize,
    // the pairs of the same rank before those of the ranks i - 1 and j, and before those of the ranks i and j - 1
    pub left: usize,
    pub right: usize,
    // the elements of the ranks j and j - 1
    pub qcount: usize,
    pub qbelow: usize,
}

// The number of pairs of a rank with a first member of a rank below i.
#[tactic(auto, using(order::proofs::Sums::sum_none, order::proofs::Sums::sum_next))]
pub fn pairs_in(p: &[Index], q: &[Index], rank: usize, i: usize) -> usize
    requires { (i ≤ rank + 1) × (rank ≤ 2 * limits.ranks) }
    ensures { result ≡ pairs_in p.now q.now rank i }
{
    let mut n: usize = 0;
    for k in 0..i {
        n += usize::from(reading::count_at(p, k)) * usize::from(reading::count_at(q, rank - k));
    }
    n
}

// The number of pairs of all ranks below a rank.
#[tactic(auto, using(crate::proofs::Numbers::pairs_steps))]
pub fn pairs_to(p: &[Index], q: &[Index], rank: usize) -> usize
    requires { (rank ≤ 2 * limits.ranks) × (pairs_to p.now q.now rank ≤ width) }
    ensures { result ≡ pairs_to p.now q.now rank }
{
    let mut n: usize = 0;
    for k in 0..rank {
        n += pairs_in(p, q, k, k + 1);
    }
    n
}

// The number of pairs of the same rank that come before those of the ranks i and j.
#[tactic(auto, unfolding(crate::specs::Places::offset_in))]
pub fn offset(p: &[Index], q: &[Index], i: usize, j: usize) -> usize
    requires { i + j ≤ 2 * limits.ranks }
    ensures { result ≡ offset_in p.now q.now i j }
{
    pairs_in(p, q, i + j, i)
}

// Whether the added minimal element lies under the pairs of the ranks i and j.
fn is_low(min: bool, i: usize, j: usize) -> bool
    requires { i + j ≤ 2 * limits.ranks }
    ensures { result ≡ (min && eqb (i + j) 0) }
{
    min && i + j == 0
}

// How many added maximal elements lie over the pairs of the ranks i and j.
fn cap_of(max: bool, p: &[Index], q: &[Index], i: usize, j: usize) -> usize
    requires { (i + j ≤ 2 * limits.ranks) × (length p.now ≤ limits.ranks) × (length q.now ≤ limits.ranks) }
    ensures { result ≡ cond (max && eqb (i + j + 2) (length p.now + length q.now)) 1 0 }
{
    usize::from(max && i + j + 2 == p.len() + q.len())
}

// What the pairs of the ranks i and j have in common. Their rank begins at the element `start`.
#[tactic(auto, using(crate::proofs::Numbers::bit_is), unfolding(crate::specs::Places::offset_in))]
pub fn block_of(poles: Poles, p: &[Index], q: &[Index], start: usize, i: usize, j: usize) -> Block
    requires j_bound { (i + j ≤ 2 * limits.ranks) × (length p.now ≤ limits.ranks) × (length q.now ≤ limits.ranks) }
    requires start_value { start ≡ bit poles.min + pairs_to p.now q.now (i + j) }
    requires i_bound { start + pairs_in p.now q.now (i + j) i ≤ width }
    ensures { BlockOf poles p.now q.now i j result }
{
    let below = j.saturating_sub(1);
    Block {
        i,
        j,
        base: usize::from(poles.min),
        from: start + offset(p, q, i, j),
        low: is_low(poles.min, i, j),
        cap: cap_of(poles.max, p, q, i, j),
        pbefore: reading::elements_before(p, i),
        qbefore: reading::elements_before(q, j),
        left: offset(p, q, i.saturating_sub(1), j),
        right: offset(p, q, i, below),
        qcount: usize::from(reading::count_at(q, j)),
        qbelow: usize::from(reading::count_at(q, below)),
    }
}
