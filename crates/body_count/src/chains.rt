// How many chains lead up to each element, rank by rank: as many as lead to its subs together. An element's number is
// kept at its place among all elements, and stops at MOST.
ghost use Rattle.std.specs.Prelude.{◌≡◌, ℕ, ◌+◌, ◌-◌, ◌≤◌, ◌<◌, length};
ghost use Rattle.order.specs.Lists.{In};
ghost use Rattle.order.specs.Sums.{sum_over};
ghost use Rattle.listing.specs.Listing.{held, limits, before};
ghost use Rattle.body_theory.specs.InAll.{flags_in_all};
ghost use Rattle.body_count.specs.Capped.{most, capped, number_at, Capped, CountedBelow};

use listing::{Index, Side, limit};
use valid::ClosedCell;
use valid_incidence::MatchedCell;

// One more than the most flags that a search can have room for.
const MOST: u16 = limit::FLAGS as u16 + 1;

// Two numbers added up, at most MOST.
fn plus(a: u16, b: u16) -> u16
    requires { (a ≤ most) × (b ≤ most) }
    ensures { result ≡ capped (a + b) }
{
    (a + b).min(MOST)
}

// The numbers of the elements in a list added up, at most MOST. Their rank begins at place b.
#[tactic(auto, using(crate::proofs::Capped::adding))]
fn sum_of(numbers: &[u16; limit::ELEMENTS], b: usize, list: &[Index]) -> u16
    requires by_index { (x : ℕ) → In x list.now → b + x < limits.elements }
    requires capped { Capped numbers.now }
    ensures { result ≡ capped (sum_over (number_at numbers.now b) list.now) }
{
    let mut sum: u16 = 0;
    for &x in list {
        sum = plus(sum, numbers[b + usize::from(x)]);
    }
    sum
}

// The numbers of the elements of rank r, from those of the rank below, which begins at place b.
#[tactic(auto, using(crate::proofs::Counted::ranking))]
fn count_rank(numbers: &mut [u16; limit::ELEMENTS], cell: MatchedCell<'_>, b: usize, r: usize)
    requires b_value { (b ≡ before cell.slices.counts.now (r - 1)) × (0 < r) × (r < length cell.slices.counts.now) }
    requires counted_below { CountedBelow (held cell.slices) r 0 numbers.old }
    ensures { CountedBelow (held cell.entry.slices) (r + 1) 0 numbers.new }
{
    let counts = cell.slices.counts;
    let here = b + usize::from(counts[r - 1]);
    for i in 0..counts[r] {
        let subs = cell.slices.side_of(here, i, Side::Subs);
        numbers[here + usize::from(i)] = sum_of(&*numbers, b, subs);
    }
}

// The flags of a closed cell, at most MOST.
#[tactic(auto, using(crate::proofs::Counted::counting))]
pub fn flags_in_all(cell: ClosedCell<'_>) -> u16
    ensures { result ≡ capped (flags_in_all (held cell.entry.slices)) }
{
    let counts = cell.slices.counts;
    let mut numbers = [0u16; limit::ELEMENTS];
    // One chain leads to the minimal element.
    numbers[0] = 1;
    let mut b: usize = 0;
    for r in 1..counts.len() {
        count_rank(&mut numbers, cell.matched(), b, r);
        b += usize::from(counts[r - 1]);
    }
    // The maximal element stands where its rank begins.
    numbers[b]
}
