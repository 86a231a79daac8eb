// Where a flag stands among those found.
ghost use Rattle.std.specs.Prelude.{◌≡◌, ◌+◌, ◌-◌, ◌*◌, ◌%◌, ◌≤◌, ◌<◌, length};
ghost use Rattle.listing.specs.Listing.{width, limits};
ghost use Rattle.search_theory.specs.Search.{index_in};
ghost use Rattle.search_index.specs.Rows.{rows, same_list};
ghost use Rattle.search_index.specs.Hash.{hashes, sum_from, hash_of, Weights};
ghost use Rattle.search_index.specs.Index.{Indexed, entered};

use crate::row;
use listing::{Index, limit};

// How many hashes there are.
pub const HASHES: usize = 16381;

// The rows with one hash are a chain: heads leads from a hash to the last of them, next from a row to the last one
// before it, each by a number one higher than the row's, and 0 where there is none.
#[derive(Drop)]
pub struct Chains {
    pub heads: [u16; HASHES],
    pub next: [u16; limit::FLAGS],
}

// The weights of the ranks.
#[tactic(auto, using(crate::proofs::Hash::weight_small))]
pub fn weights() -> [usize; limit::RANKS]
    ensures { Weights result }
{
    let mut a = [1usize; limit::RANKS];
    // By index: each number comes from the one before.
    for r in 1..limit::RANKS {
        a[r] = a[r - 1] * 5741 % HASHES;
    }
    a
}

// The sum of the numbers of a flag, each times its weight.
pub fn sum_of(flag: &[Index], weights: &[usize; limit::RANKS]) -> usize
    requires { (length flag.now ≤ limits.ranks) × Weights weights.now }
    ensures { (result ≡ sum_from 0 flag.now) × (result ≤ length flag.now * (width * hashes)) }
{
    let mut sum: usize = 0;
    for (&x, &weight) in flag.iter().zip(weights) {
        sum += usize::from(x) * weight;
    }
    sum
}

// The hash of a flag after a number in it changes: the sum was that of the whole flag, and the weight is the number's.
#[tactic(auto, using(crate::proofs::Hash::times_small))]
pub fn hash_changed(sum: usize, weight: usize, old: u16, new: u16) -> usize
    requires { (sum ≤ limits.ranks * (width * hashes)) × (weight < hashes) × (old * weight ≤ sum + new * weight) }
    ensures { result ≡ (sum + new * weight - old * weight) % hashes }
{
    (sum + usize::from(new) * weight - usize::from(old) * weight) % HASHES
}

impl Chains {
    // Row n goes to the front of the chain of the hash h.
    pub fn enter(&mut self, h: usize, n: u16)
        requires { (h < hashes) × (n < limits.flags) }
        ensures { self.new ≡ entered self.old h n }
    {
        self.next[usize::from(n)] = self.heads[h];
        self.heads[h] = n + 1;
    }
}
