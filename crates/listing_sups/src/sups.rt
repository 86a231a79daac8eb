// Sups derived from subs: counted, and filled in.
// Output slices stay parameters of their own: a struct of them would need a clause on each of its parts everywhere.
ghost use Rattle.std.specs.Prelude.{◌≡◌, [], ◌∷◌, ℕ, ◌+◌, ◌*◌, ◌≤◌, ◌<◌, length, get_or, replicate};
ghost use Rattle.order.specs.Lists.{occurs};
ghost use Rattle.order.specs.Sums.{sum};
ghost use Rattle.listing.specs.Listing.{width, listing, held, before, start, Ends, subs_at};
ghost use Rattle.listing.specs.Shape.{elements};
ghost use Rattle.listing.specs.Layers.{gather};
ghost use Rattle.listing_sups.specs.Sups.{UpCounts, Raised, Strewn, Apart, span};
ghost use Rattle.listing_sups.specs.Sups.{Fillable, SupsFilled};

use listing::{Index, Slices, limit, reading};

// Counts one entry x for the element that it names, of n elements that are counted from place `from` on. An entry that
// names none is passed over.
fn tally_entry(up: &mut [Index], from: usize, n: usize, x: usize)
    requires n_in_bounds { from + n ≤ length up.old }
    requires x_bound { x < n → get_or up.old (from + x) 0 + 1 < width }
    ensures { Raised from n (λ y. occurs y (x ∷ [])) up.old up.new }
{
    if x < n {
        up[from + x] += 1;
    }
}

// Counts the entries of one list.
fn tally_list(up: &mut [Index], from: usize, n: usize, list: &[Index])
    requires n_in_bounds { from + n ≤ length up.old }
    requires by_index { (k : ℕ) → get_or up.old k 0 + length list.now < width }
    ensures { Raised from n (λ y. occurs y list.now) up.old up.new }
{
    for &x in list {
        tally_entry(up, from, n, usize::from(x));
    }
}

// Counts the entries of the subs of m elements, which begin at the place `here` of the lists.
fn tally_rank(up: &mut [Index], from: usize, n: usize, slices: Slices<'_>, here: usize, m: usize)
    requires n_in_bounds { from + n ≤ length up.old }
    requires ends { Ends slices.ends.now slices.inc.now }
    requires m_in_bounds { 2 * (here + m) ≤ length slices.ends.now }
    requires by_index { (k : ℕ) → get_or up.old k 0 ≤ start slices.ends.now (2 * here) }
    ensures raised { Raised from n
        (λ y. sum (λ a. occurs y (subs_at slices.entry.ends.now slices.entry.inc.now here a)) m) up.old up.new }
    ensures by_index_2 { (k : ℕ) → get_or up.new k 0 ≤ start slices.entry.ends.now (2 * (here + m)) }
{
    for a in 0..m {
        tally_list(up, from, n, slices.list_of(2 * (here + a)));
    }
}

// Counts for each element of some ranks how many sups are derived for it, which is how often it is listed one rank
// higher. The first of these elements has the number `base` in the lists. What names no element is passed over.
pub fn tally(up: &mut [Index], slices: Slices<'_>, base: usize)
    requires ends { Ends slices.ends.now slices.inc.now }
    requires counts_in_bounds { 2 * (base + elements (held slices)) ≤ length slices.ends.now }
    requires counts_in_bounds_2 { elements (held slices) ≤ length up.old }
    requires by_index { (k : ℕ) → get_or up.old k 0 ≡ 0 }
    ensures { UpCounts base (held slices.entry) up.new }
{
    let mut from: usize = 0;
    // the elements of a rank, and those of the rank above it
    for pair in slices.counts.windows(2) {
        let n = usize::from(pair[0]);
        let m = usize::from(pair[1]);
        tally_rank(up, from, n, slices, base + from + n, m);
        from += n;
    }
}

// Writes k at the cursor of the element that the entry x names, of n elements whose cursors stand from place `from`
// on. An entry that names none is passed over.
fn fill_entry(inc: &mut [Index], next: &mut [Index], from: usize, n: usize, x: usize, k: usize)
    requires n_in_bounds { (from + n ≤ length next.old) × (k < width) }
    requires x_in_bounds { x < n → get_or next.old (from + x) 0 < length inc.old }
    requires x_bound { x < n → get_or next.old (from + x) 0 + 1 < width }
    ensures raised { Raised from n (λ y. occurs y (x ∷ [])) next.old next.new }
    ensures strewn { Strewn from n (λ y. replicate (occurs y (x ∷ [])) k) next.old
        inc.old inc.new }
{
    if x < n {
        let cursor = usize::from(next[from + x]);
        inc[cursor] = k as Index;
        next[from + x] = (cursor + 1) as Index;
    }
}

// Writes k at the cursor of each entry of the list from place `lo` up to place `hi`.
fn fill_element(
    inc: &mut [Index],
    next: &mut [Index],
    from: usize,
    n: usize,
    lo: usize,
    hi: usize,
    k: usize,
)
    requires n_in_bounds { (from + n ≤ length next.old) × (k < width) }
    requires lo_le_hi { (lo ≤ hi) × (hi ≤ length inc.old) × (hi < width) }
    requires apart { Apart from n (λ x. occurs x (span inc.old lo hi)) lo next.old }
    ensures raised { Raised from n (λ y. occurs y (span inc.old lo hi))
        next.old next.new }
    ensures strewn { Strewn from n (λ y. replicate (occurs y (span inc.old lo hi)) k)
        next.old inc.old inc.new }
{
    // By index: `inc` is written while a list of it is read.
    for t in lo..hi {
        let x = usize::from(inc[t]);
        fill_entry(inc, next, from, n, x, k);
    }
}

// Fills in the sups of n elements, whose cursors stand from place `from` on, from the subs of the m elements over
// them, which begin at the place `here` of the lists.
fn fill_rank(
    ends: &[Index],
    inc: &mut [Index],
    next: &mut [Index],
    from: usize,
    n: usize,
    here: usize,
    m: usize,
)
    requires n_in_bounds { (from + n ≤ length next.old) × (m < width) }
    requires ends { Ends ends.now inc.old }
    requires m_in_bounds { 2 * (here + m) ≤ length ends.now }
    requires apart { Apart from n (λ x. length (gather (subs_at ends.now inc.old here) x m))
        (start ends.now (2 * here)) next.old }
    ensures raised { Raised from n (λ y. length (gather (subs_at ends.now inc.old here) y m))
        next.old next.new }
    ensures strewn { Strewn from n (λ y. gather (subs_at ends.now inc.old here) y m)
        next.old inc.old inc.new }
{
    for k in 0..m {
        let e = 2 * (here + k);
        let lo = reading::start_of(ends, e);
        let hi = usize::from(ends[e]);
        fill_element(inc, next, from, n, lo, hi, k);
    }
}

// Fills in the sups of all ranks, with a cursor for each element.
fn fill_ranks(counts: &[Index], ends: &[Index], inc: &mut [Index], next: &mut [Index])
    requires fillable { Fillable (listing counts.now ends.now inc.old) }
    requires counts_in_bounds { before counts.now (length counts.now) ≤ length next.old }
    requires by_index { (e : ℕ) → e < before counts.now (length counts.now)
        → get_or next.old e 0 ≡ get_or ends.now (2 * e) 0 }
    ensures { SupsFilled (listing counts.now ends.now inc.old) (length counts.now)
        inc.new }
{
    let mut from: usize = 0;
    // the elements of a rank, and those of the rank above it
    for pair in counts.windows(2) {
        let n = usize::from(pair[0]);
        let m = usize::from(pair[1]);
        fill_rank(ends, inc, next, from, n, from + n, m);
        from += n;
    }
}

// Fills in the sups of all elements, from their subs. A sub that names no element is passed over.
pub fn fill(counts: &[Index], ends: &[Index], inc: &mut [Index])
    requires { Fillable (listing counts.now ends.now inc.old) }
    ensures { SupsFilled (listing counts.now ends.now inc.old) (length counts.now)
        inc.new }
{
    let mut next: [Index; limit::ELEMENTS] = [0; limit::ELEMENTS];
    let n = reading::elements_before(counts, counts.len());
    reading::set_cursors(&mut next, ends, 0, n);
    fill_ranks(counts, ends, inc, &mut next);
}
