// A quick look at a bounded cell, which may say no, but whose yes is proved: whether subs and sups match up and all
// lists ascend. Each element has a cursor that goes along its sups, while the elements over it are met in their order
// with their subs: so each incidence is looked at once, and nothing is searched for.
ghost use Rattle.std.specs.Prelude.{◌≡◌, true, [], ◌∷◌, ◌+◌, ◌*◌, ◌≤◌, ◌<◌, length, get_or, replicate};
ghost use Rattle.order.specs.Lists.{occurs};
ghost use Rattle.listing.specs.Listing.{held, subs_at};
ghost use Rattle.listing.specs.Layers.{gather};
ghost use Rattle.valid.specs.Agreement.{Agrees, Cursors, AscendsBelow, AllBelow, Met, AllMet, SomeSups};

use listing::{Cell, Index, Side, limit, reading};

// Where the elements of a rank stand: the place of the first, and how many there are.
#[derive(Clone, Copy)]
struct Rank {
    place: usize,
    size: Index,
}

// Whether the next sup of element s of the lower rank is x; its cursor then goes on.
fn meet(next: &mut [Index; limit::ELEMENTS], cell: Cell<'_>, low: Rank, s: Index, x: Index) -> bool
    requires cursors { Cursors cell.slices.ends.now low.place low.size next.old }
    requires s_lt_size { s < low.size }
    ensures { result ≡ true → Met cell.entry.slices.inc.now low.size (λ y. replicate (occurs y (s ∷ [])) x)
        next.old next.new }
{
    let at = usize::from(s);
    let cursor = next[at];
    if cell.slices.ends[2 * (low.place + at) + 1] <= cursor {
        return false;
    }
    if cell.slices.inc[usize::from(cursor)] != x {
        return false;
    }
    next[at] = cursor + 1;
    true
}

// Whether the subs of element x ascend, are elements of the lower rank, and each has x as its next sup.
fn meet_list(
    next: &mut [Index; limit::ELEMENTS],
    cell: Cell<'_>,
    low: Rank,
    subs: &[Index],
    x: Index,
) -> bool
    requires { Cursors cell.slices.ends.now low.place low.size next.old }
    ensures ascends_below { result ≡ true → AscendsBelow low.size subs.now }
    ensures met { result ≡ true → Met cell.entry.slices.inc.now low.size (λ y. replicate (occurs y subs.now) x)
        next.old next.new }
{
    let mut from: usize = 0;
    for &s in subs {
        if low.size <= s {
            return false;
        }
        if usize::from(s) < from {
            return false;
        }
        if !meet(next, cell, low, s, x) {
            return false;
        }
        from = usize::from(s) + 1;
    }
    true
}

// The same of all elements of the rank above, in their order; none of them is without subs.
#[tactic(auto, using(crate::proofs::Agreeing::met_none, crate::proofs::Agreeing::gather_none))]
fn meet_rank(next: &mut [Index; limit::ELEMENTS], cell: Cell<'_>, low: Rank, high: Rank) -> bool
    requires cursors { Cursors cell.slices.ends.now low.place low.size next.old }
    requires size_in_bounds { 2 * (high.place + high.size) ≤ length cell.slices.ends.now }
    ensures all_below { result ≡ true → AllBelow low.size
        (subs_at cell.entry.slices.ends.now cell.entry.slices.inc.now high.place) high.size }
    ensures met { result ≡ true → Met cell.entry.slices.inc.now low.size
        (λ y. gather (subs_at cell.entry.slices.ends.now cell.entry.slices.inc.now high.place) y high.size)
        next.old next.new }
{
    for x in 0..high.size {
        let subs = cell.side_of(high.place, x, Side::Subs);
        if subs.is_empty() {
            return false;
        }
        if !meet_list(next, cell, low, subs, x) {
            return false;
        }
    }
    true
}

// Whether each cursor of a rank has come to the end of its sups; and, where `some` is set, whether none has none.
fn all_met(next: &[Index; limit::ELEMENTS], ends: &[Index], low: Rank, some: bool) -> bool
    requires { Cursors ends.now low.place low.size next.now }
    ensures all_met { result ≡ true → AllMet ends.now low.place low.size next.now }
    ensures some_sups { result ≡ true → some ≡ true → SomeSups ends.now low.place low.size }
{
    for at in 0..usize::from(low.size) {
        let k = 2 * (low.place + at);
        if next[at] != ends[k + 1] {
            return false;
        }
        if some && ends[k] == ends[k + 1] {
            return false;
        }
    }
    true
}

// Whether subs and sups match up, and all lists ascend, as far as one pass tells.
#[tactic(auto, using(crate::proofs::Agreeing::ranks))]
pub fn agree(cell: Cell<'_>) -> bool
    requires { get_or cell.slices.counts.now 0 0 ≡ 1 }
    ensures { result ≡ true → Agrees (held cell.entry.slices) }
{
    let counts = cell.slices.counts;
    let ends = cell.slices.ends;
    // the one element of rank 0 has nothing under it
    if ends[0] != 0 {
        return false;
    }
    let mut next: [Index; limit::ELEMENTS] = [0; limit::ELEMENTS];
    let mut here: usize = 0;
    for (r, &size) in counts.iter().enumerate() {
        let low = Rank { place: here, size };
        here += usize::from(size);
        let high = Rank {
            place: here,
            size: reading::count_at(counts, r + 1),
        };
        reading::set_cursors(&mut next, ends, low.place, usize::from(low.size));
        if !meet_rank(&mut next, cell, low, high) {
            return false;
        }
        if !all_met(&next, ends, low, r + 1 < counts.len()) {
            return false;
        }
    }
    true
}
