// How large a product is, known from its factors before a number is written.
ghost use Rattle.std.specs.Prelude.{◌≡◌, ◌+◌, ◌-◌, ◌*◌, ◌≤◌, length};
ghost use Rattle.listing.specs.Listing.{held, limits, Ends};
ghost use Rattle.listing.specs.Layers.{layers};
ghost use Rattle.listing.specs.Told.{told};
ghost use Rattle.product_pairs.specs.Trimmed.{bit, trimmed};
ghost use Rattle.product_sizes.specs.Sizing.{Usable, counts_in_use, factor_of, subs_between, extent_of, Little};
ghost use Rattle.product_sizes.specs.Sizing.{totals_of, need_of_totals, totals_test};

use listing::{Index, Refusal, Slices, limit, reading};
use listing_outputs::outputs;
use listing_outputs::outputs::Room;
use product_places::Poles;

// How large the part of a factor is that a product uses: its ranks, elements and subs, and the elements of its lowest
// and of its highest rank.
#[derive(Clone, Copy)]
pub struct Extent {
    pub ranks: usize,
    pub elements: usize,
    pub subs: usize,
    pub lowest: usize,
    pub highest: usize,
}

// How large a product is.
#[derive(Clone, Copy)]
pub struct Totals {
    pub ranks: usize,
    pub elements: usize,
    pub incidences: usize,
}

// The counts of the ranks in use: without the lowest where min is set, without the highest where max is.
#[tactic(auto, using(product_places::proofs::Numbers::bit_is), unfolding(crate::specs::Sizing::counts_in_use))]
pub fn range<'a>(poles: Poles, counts: &'a [Index]) -> &'a [Index]
    requires { bit poles.min + bit poles.max ≤ length counts.now }
    ensures { result.now ≡ counts_in_use poles.min poles.max counts.now }
{
    &counts[usize::from(poles.min)..counts.len() - usize::from(poles.max)]
}

// A factor with the counts of its ranks in use alone.
pub fn in_use<'a>(poles: Poles, slices: Slices<'a>) -> Slices<'a>
    requires { bit poles.min + bit poles.max ≤ length slices.counts.now }
    ensures { held result ≡ factor_of poles.min poles.max (held slices.entry) }
{
    Slices {
        counts: range(poles, slices.counts),
        ..slices
    }
}

// How many subs the elements from one number up to another list.
#[tactic(auto, using(crate::proofs::Extents::listed))]
fn subs_listed(slices: Slices<'_>, from: usize, to: usize) -> usize
    requires ends { Ends slices.ends.now slices.inc.now }
    requires from_le_to { (from ≤ to) × (2 * to ≤ length slices.ends.now) × (to ≤ limits.elements + 1)
        × (length slices.inc.now ≤ limits.incidences) }
    ensures value { result ≡ subs_between slices.entry.ends.now slices.entry.inc.now from to }
    ensures upper_bound { result ≤ limits.incidences * (to - from) }
{
    let mut n: usize = 0;
    for e in from..to {
        n += slices.list_of(2 * e).len();
    }
    n
}

// The extent of what a product uses of a factor.
pub fn extent_of(poles: Poles, slices: Slices<'_>) -> Extent
    requires { Usable poles.min poles.max (held slices) }
    ensures little { Little result }
    ensures value { result ≡ extent_of (trimmed poles.min poles.max (layers (held slices.entry))) }
{
    let p = range(poles, slices.counts);
    let base = usize::from(poles.min);
    let elements = reading::elements_before(p, p.len());
    let lowest = usize::from(p[0]);
    let highest = usize::from(p[p.len() - 1]);
    let subs = subs_listed(slices, base + lowest, base + elements);
    Extent {
        ranks: p.len(),
        elements,
        subs,
        lowest,
        highest,
    }
}

// The product of two counts, the second one of elements.
fn times(x: usize, y: usize) -> usize
    requires { (x ≤ limits.elements * limits.incidences) × (y ≤ limits.elements) }
    ensures { (result ≡ x * y) × (result ≤ limits.elements * limits.incidences * limits.elements) }
{
    x * y
}

// A number where it is asked for, else 0.
fn where_asked(asked: bool, n: usize) -> usize
    ensures { (result ≡ bit asked * n) × (result ≤ n) }
{
    if asked { n } else { 0 }
}

// How large the product is of two factors that have these extents in use.
pub fn product_sizes(poles: Poles, p: Extent, q: Extent) -> Totals
    requires { Little p × Little q }
    ensures { result ≡ totals_of poles p q }
{
    let low = usize::from(poles.min);
    let high = usize::from(poles.max);
    let pairs = times(p.elements, q.elements);
    let subs = times(p.subs, q.elements) + times(q.subs, p.elements);
    let lowest = where_asked(poles.min, times(p.lowest, q.lowest));
    let highest = where_asked(poles.max, times(p.highest, q.highest));
    Totals {
        ranks: p.ranks + q.ranks - 1 + low + high,
        elements: pairs + low + high,
        incidences: 2 * (subs + lowest + highest),
    }
}

// How much room a product of these sizes needs.
pub fn need_of(s: Totals) -> Room
    requires { s.elements ≤ limits.elements }
    ensures { result ≡ need_of_totals s }
{
    Room {
        counts: s.ranks,
        ends: 2 * s.elements,
        inc: s.incidences,
    }
}

// Whether a product of these sizes is within the limits, and then whether there is room for it.
#[tactic(auto, using(crate::proofs::Tested::totals_tests))]
pub fn check_sizes(s: Totals, room: Room) -> Result<(), Refusal>
    ensures { told result ≡ totals_test limits s room }
{
    if limit::RANKS < s.ranks {
        return Err(Refusal::ProductRanks);
    }
    if limit::ELEMENTS < s.elements {
        return Err(Refusal::ProductElements);
    }
    if limit::INCIDENCES < s.incidences {
        return Err(Refusal::ProductIncidences);
    }
    outputs::check_room(need_of(s), room)
}
