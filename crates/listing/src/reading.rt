// How the crates above read a listing. Some of these functions ask something of their caller, as that the ends do not
// fall; the entries ask nothing.
ghost use Rattle.std.specs.Prelude.{◌≡◌, ◌+◌, ◌*◌, ◌≤◌, ◌<◌, length, get_or, take};
ghost use Rattle.listing.specs.Listing.{held, limits, width, before, start, entries, Ends};
ghost use Rattle.listing.specs.Laid.{Laid};
ghost use Rattle.listing.specs.Shape.{Shaped};
ghost use Rattle.listing.specs.Told.{side_no};

use crate::{Cell, Index, Side, Slices};

// The first n numbers of a slice; all where it has fewer.
pub fn front<'a>(list: &'a [Index], n: usize) -> &'a [Index]
    ensures { result.now ≡ take n list.now }
{
    list.get(..n).unwrap_or(list)
}

// The number of elements of a rank: 0 for a rank that is not there.
pub fn count_at(counts: &[Index], r: usize) -> Index
    ensures { result ≡ get_or counts.now r 0 }
{
    counts.get(r).copied().unwrap_or(0)
}

// The number of elements of all ranks below rank r: where rank r begins.
#[tactic(auto, using(crate::proofs::Listing::before_zero, crate::proofs::Listing::before_next))]
pub fn elements_before(counts: &[Index], r: usize) -> usize
    requires { r < width }
    ensures { result ≡ before counts.now r }
{
    let mut n: usize = 0;
    for q in 0..r {
        n += usize::from(count_at(counts, q));
    }
    n
}

// Where the kth list begins.
pub fn start_of(ends: &[Index], k: usize) -> usize
    requires { k ≤ length ends.now }
    ensures { result ≡ start ends.now k }
{
    if k == 0 {
        return 0;
    }
    usize::from(ends[k - 1])
}

// Sets the cursor of each of n elements, the first of which stands at `place`, to where its sups begin, which is where
// its subs end.
#[tactic(auto, using(crate::proofs::Laying::laid_none, crate::proofs::Laying::laid_next))]
pub fn set_cursors(next: &mut [Index], ends: &[Index], place: usize, n: usize)
    requires { (n ≤ length next.old) × (2 * (place + n) ≤ length ends.now) }
    ensures { Laid 0 (λ k. get_or ends.now (2 * (place + k)) 0) n next.old next.new }
{
    for k in 0..n {
        next[k] = ends[2 * (place + k)];
    }
}

impl<'a> Slices<'a> {
    // The kth list.
    #[tactic(auto, unfolding(crate::specs::Listing::entries))]
    pub fn list_of(self, k: usize) -> &'a [Index]
        requires ends { Ends self.ends.now self.inc.now }
        requires k_in_bounds { k < length self.ends.now }
        ensures value { result.now ≡ entries self.entry.ends.now self.entry.inc.now k }
        ensures end_fits { get_or self.entry.ends.now k 0 < width }
    {
        &self.inc[start_of(self.ends, k)..usize::from(self.ends[k])]
    }

    // The list at a side of the element x places after the place p.
    pub fn side_of(self, p: usize, x: Index, side: Side) -> &'a [Index]
        requires ends { Ends self.ends.now self.inc.now }
        requires side_in_bounds { 2 * (p + x) + side_no side < length self.ends.now }
        ensures { result.now ≡ entries self.entry.ends.now self.entry.inc.now (2 * (p + x) + side_no side) }
    {
        self.list_of(2 * (p + usize::from(x)) + usize::from(Index::from(side)))
    }
}

impl<'a> Cell<'a> {
    // The kth list.
    pub fn list_of(self, k: usize) -> &'a [Index]
        requires { k < length self.slices.ends.now }
        ensures { result.now ≡ entries self.entry.slices.ends.now self.entry.slices.inc.now k }
    {
        self.slices.list_of(k)
    }

    // The list at a side of the element x places after the place p.
    pub fn side_of(self, p: usize, x: Index, side: Side) -> &'a [Index]
        requires { 2 * (p + x) + side_no side < length self.slices.ends.now }
        ensures { result.now ≡ entries self.entry.slices.ends.now self.entry.slices.inc.now
            (2 * (p + x) + side_no side) }
    {
        self.slices.side_of(p, x, side)
    }
}
